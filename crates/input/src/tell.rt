// Messages on standard error: who tells, of which input, what can't be read and where.
use crate::line::{ABOVE, Fault, MOST};
use crate::list::Trouble;
use std::error::Error;
use std::fmt;
use std::fmt::{Display, Formatter, Write};

impl Display for Fault {
    fn fmt<W: Write>(&self, f: &mut Formatter<W>) -> fmt::Result {
        match self {
            // A byte as it is, if it can be seen, else its number.
            Fault::Strange(b @ b'!'..=b'~') => write!(
                f,
                "`{}` is neither a digit nor a blank",
                char::from(*b)
            ),
            Fault::Strange(b) => write!(f, "byte {b} is neither a digit nor a blank"),
            Fault::TooLarge => write!(f, "the number is not below {ABOVE}"),
            Fault::TooMany => write!(f, "more than {MOST} numbers"),
            Fault::Has(count) => write!(f, "{count} numbers"),
        }
    }
}

impl Error for Fault {}

// What the line should have been.
fn wanted(listing: bool) -> &'static str {
    if listing {
        return "a call has 4: kind x y z";
    }
    "a list begins with one, how many calls it has"
}

impl Display for Trouble {
    fn fmt<W: Write>(&self, f: &mut Formatter<W>) -> fmt::Result {
        match *self {
            Trouble::Short { place, left, want } => {
                write!(
                    f,
                    "the input ends after line {place}, {left} of {want} calls are missing"
                )
            }
            Trouble::Line {
                place,
                column,
                listing: _,
                fault: fault @ (Fault::Strange(_) | Fault::TooLarge),
            } => write!(f, "line {place}, column {column}: {fault}"),
            Trouble::Line {
                place,
                listing,
                fault,
                ..
            } => write!(f, "line {place} has {fault}; {}", wanted(listing)),
        }
    }
}

impl Error for Trouble {}

// Tells what is wrong, who tells it and of what.
pub fn tell(err: &impl Print, who: &[u8], name: &[u8], what: &impl Display) {
    let _ = err.write_all(who);
    let _ = err.write_all(b": ");
    let _ = err.write_all(name);
    let _ = err.println(format_args!(": {what}"));
}
