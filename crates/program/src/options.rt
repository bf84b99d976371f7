// What a program is asked by its arguments.
use crate::{Program, Show};
use phrases::reason::Words;
use std::env::{Env, FillError};
use std::fmt;
use std::fmt::{Display, Formatter, Write};
use std::io::Error;

// The longest argument that is read. It holds any path.
pub const ROOM: usize = 4096;

// The system's number for a name that is too long.
const TOO_LONG: i32 = 36;

#[derive(Clone, Copy)]
pub struct Options {
    pub help: bool,
    pub show: Show,
    // Does an argument name a file?
    pub files: bool,
}

#[derive(Clone, Copy, Debug, PartialEq, Eq)]
struct NoOption;

impl Display for NoOption {
    fn fmt<W: Write>(&self, f: &mut Formatter<W>) -> fmt::Result {
        f.write_str("there is no such option; --help tells which there are")
    }
}

// An option starts with `-`.
pub fn is_option(argument: &[u8]) -> bool {
    matches!(argument, [b'-', ..])
}

impl Options {
    // Takes one argument more.
    fn take(&mut self, argument: &[u8]) -> Result<(), NoOption> {
        match argument {
            b"--help" => self.help = true,
            // A picture has no words.
            b"--words" if self.show != Show::Picture => self.show = Show::Words,
            [b'-', ..] => return Err(NoOption),
            _ => self.files = true,
        }
        Ok(())
    }
}

// How many arguments the program was started with, its own name among them. There is no heap for a list of them: the handle tells them one by one, into a room
// that is lent, and not how many there are.
pub fn count(rt: &HostRuntime) -> usize {
    let mut space = [0u8; ROOM];
    for i in 0..usize::MAX {
        if let Err(FillError::NotPresent) = rt.arg(i, &mut space) {
            return i;
        }
    }
    usize::MAX
}

impl Program<'_, '_> {
    // Takes argument i. Was it taken? If not, that is told.
    fn takes(&self, options: &mut Options, i: usize) -> bool {
        let mut space = [0u8; ROOM];
        let Ok(n) = self.rt.arg(i, &mut space) else {
            self.tell(b"an argument", &Words(&Error::from_raw_os_error(TOO_LONG)));
            return false;
        };
        let taken = options.take(&space[..n]);
        if let Err(e) = taken {
            self.tell(&space[..n], &e);
        }
        taken.is_ok()
    }

    // What all arguments ask. None if one is no option and can be no file's name; each such is told of.
    pub fn asked(&self) -> Option<Options> {
        let mut options = Options {
            help: false,
            show: self.show,
            files: false,
        };
        let mut taken = true;
        for i in 1..count(&self.rt) {
            taken &= self.takes(&mut options, i);
        }
        if taken { Some(options) } else { None }
    }
}
