// Output by way of a lent buffer.
ghost use Rattle.std.specs.Prelude.{◌≤◌, length};

use crate::reason::Words;
use std::fmt;
use std::fmt::Write;

// What waits to be written stands at the start of the room, which is lent and counted here: there is no heap to let it grow.
#[derive(Drop)]
pub struct Out<'a, R> {
    rt: &'a R,
    room: &'a mut [u8],
    waiting: usize,
    // A write has failed: nothing is written from then on.
    lost: bool,
    ghost in_room: { waiting ≤ length room.now },
}

impl<'a, R: Print + Eprint> Out<'a, R> {
    pub fn new(rt: &'a R, room: &'a mut [u8]) -> Self {
        Out {
            rt,
            room,
            waiting: 0,
            lost: false,
        }
    }

    pub fn is_lost(&self) -> bool {
        self.lost
    }

    // Writes what waits. A write that fails is told, once.
    pub fn flush(&mut self) {
        if self.lost {
            return;
        }
        if let Err(e) = self.rt.write_all(&self.room[..self.waiting]) {
            let _ = eprintln!(self.rt; "standard output can't be written: {}", Words(&e));
            self.lost = true;
        }
        self.waiting = 0;
    }

    // What waits is written only when the room is full. A room of no bytes drops what it is given.
    fn put(&mut self, b: u8) -> fmt::Result {
        if self.room.len() <= self.waiting {
            self.flush();
        }
        if self.lost {
            return Err(fmt::Error);
        }
        if self.waiting < self.room.len() {
            self.room[self.waiting] = b;
            self.waiting += 1;
        }
        Ok(())
    }

    // Bytes that need not be text.
    pub fn bytes(&mut self, s: &[u8]) -> fmt::Result {
        for b in s {
            self.put(*b)?;
        }
        Ok(())
    }
}

impl<R: Print + Eprint> Write for Out<'_, R> {
    fn write_str(&mut self, s: &str) -> fmt::Result {
        self.bytes(s.as_bytes())
    }
}
