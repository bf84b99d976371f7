// Why something failed, in the system's words.
ghost use Rattle.std.specs.Prelude.{◌≤◌};

use std::fmt;
use std::fmt::{Display, Write};
use std::io::Error;

// More bytes than such words and their number have.
const ROOM: usize = 256;

// An error's words alone: std puts the error's number after them.
#[derive(Drop)]
pub struct Words<'a>(pub &'a Error);

// Text in a room of its own, of fixed size, since the programs take no memory as they run; what finds no room is dropped.
#[derive(Drop)]
struct Text {
    bytes: [u8; ROOM],
    count: usize,
    ghost in_room: { count ≤ 256 },
}

impl Text {
    fn put(&mut self, b: u8) {
        if self.count < ROOM {
            self.bytes[self.count] = b;
            self.count += 1;
        }
    }
}

impl Write for Text {
    fn write_str(&mut self, s: &str) -> fmt::Result {
        for b in s.as_bytes() {
            self.put(*b);
        }
        Ok(())
    }
}

// What stands before the number, or all of it where there is none.
fn unnumbered(s: &str) -> &str {
    match s.split_once(" (os error ") {
        Some((words, _)) => words,
        None => s,
    }
}

impl Display for Words<'_> {
    fn fmt<W: Write>(&self, f: &mut fmt::Formatter<W>) -> fmt::Result {
        let mut text = Text {
            bytes: [0; ROOM],
            count: 0,
        };
        write!(text, "{}", self.0)?;
        match str::from_utf8(&text.bytes[..text.count]) {
            Ok(s) => f.write_str(unnumbered(s)),
            Err(_) => Ok(()),
        }
    }
}
