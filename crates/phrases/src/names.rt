// Names and rows: what stands in a line of either style.
use crate::line::Mapped;
use entity::Type;
use std::fmt;
use std::fmt::{Display, Write};

// A type's name. A number that names no type stands for itself.
#[derive(Clone, Copy)]
pub struct Name(pub Type);

// A float's unset value has bits set, an integer's has none.
fn letter(lane: Type) -> char {
    let bits = lane.unset_bits();
    if bits.low == 0 && bits.high == 0 {
        return 'I';
    }
    'F'
}

impl Display for Name {
    fn fmt<W: Write>(&self, f: &mut fmt::Formatter<W>) -> fmt::Result {
        let t = self.0;
        if !Type::known(t.0) {
            return write!(f, "{}", t.0);
        }
        let lane = t.lane();
        write!(f, "{}{}", letter(lane), lane.width() as usize * 8)?;
        if t.lanes() < 2 {
            return Ok(());
        }
        write!(f, "X{}", t.lanes())
    }
}

// The numbers of a row, each after a blank and what tells of what it is the number.
#[derive(Clone, Copy)]
pub struct Row<'a> {
    pub of: &'static str,
    pub numbers: &'a [u32],
}

impl Display for Row<'_> {
    fn fmt<W: Write>(&self, f: &mut fmt::Formatter<W>) -> fmt::Result {
        for n in self.numbers {
            write!(f, " {}{}", self.of, n)?;
        }
        Ok(())
    }
}

// A row that needs no word for what its numbers are of.
pub fn numbers(numbers: &[u32]) -> Row<'_> {
    Row { of: "", numbers }
}

// The numbers of those that stack maps must have, each after a text and before another.
#[derive(Clone, Copy)]
pub struct Places<'a> {
    pub before: &'static str,
    pub of: Mapped<'a>,
    pub after: &'static str,
}

impl Display for Places<'_> {
    fn fmt<W: Write>(&self, f: &mut fmt::Formatter<W>) -> fmt::Result {
        for (i, cell) in self.of.cells().iter().enumerate() {
            if self.of.has(*cell) {
                write!(f, "{}{}{}", self.before, i, self.after)?;
            }
        }
        Ok(())
    }
}
