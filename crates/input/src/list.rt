// A list is a line with its number of calls, then a line `kind x y z` for each; lists follow each other.
ghost use Rattle.std.specs.Prelude.{◌≡◌, ◌≤◌};
ghost use Rattle.entity.specs.Limits.{limits};

use crate::line::{Fault, Line, MOST};

const CALLS: usize = entity::CALLS as usize;

// The calls of a list, up to the limit: a column each for their kinds, xs, ys and zs, as a session takes them. There is no heap, so each has room for all.
// It is large, so one is made for all inputs and lent to the reading of each.
#[derive(Drop)]
pub struct Calls {
    kinds: [u32; CALLS],
    xs: [u32; CALLS],
    ys: [u32; CALLS],
    zs: [u32; CALLS],
    count: usize,
    ghost in_room: { count ≤ limits.calls },
}

impl Calls {
    pub fn new() -> Calls
        ensures { result.count ≡ 0 }
    {
        Calls {
            kinds: [0; CALLS],
            xs: [0; CALLS],
            ys: [0; CALLS],
            zs: [0; CALLS],
            count: 0,
        }
    }

    fn clear(&mut self) {
        self.count = 0;
    }

    // A call above the limit is not kept.
    fn keep(&mut self, call: [u32; MOST]) {
        if self.count < CALLS {
            let [kind, x, y, z] = call;
            self.kinds[self.count] = kind;
            self.xs[self.count] = x;
            self.ys[self.count] = y;
            self.zs[self.count] = z;
            self.count += 1;
        }
    }

    pub fn kinds(&self) -> &[u32] {
        &self.kinds[..self.count]
    }

    pub fn xs(&self) -> &[u32] {
        &self.xs[..self.count]
    }

    pub fn ys(&self) -> &[u32] {
        &self.ys[..self.count]
    }

    pub fn zs(&self) -> &[u32] {
        &self.zs[..self.count]
    }
}

// What ends a reading.
#[derive(Clone, Copy, Debug, PartialEq, Eq)]
pub enum Trouble {
    // A line can't be read. What it should tell, depends on whether a list is under way.
    Line {
        place: u64,
        column: u64,
        listing: bool,
        fault: Fault,
    },
    // The input ends after this line, and a list lacks calls.
    Short {
        place: u64,
        left: u32,
        want: u32,
    },
}

// How many calls a list has, and how many of them are still to come.
#[derive(Clone, Copy)]
struct Counts {
    want: u32,
    left: u32,
}

// Where the reading of an input stands.
#[derive(Clone, Copy)]
pub struct Reading {
    line: Line,
    // The list under way. If there is none, the next line tells how many calls it has.
    list: Option<Counts>,
}

impl Reading {
    pub fn new() -> Reading {
        Reading {
            line: Line::first(),
            list: None,
        }
    }

    // The number of the line that is read.
    pub fn place(&self) -> u64 {
        self.line.place()
    }

    fn trouble(&self, fault: Fault) -> Trouble {
        Trouble::Line {
            place: self.line.place(),
            column: self.line.column(),
            listing: self.list.is_some(),
            fault,
        }
    }

    // The line that tells how many calls follow.
    fn opened(&self, calls: &mut Calls) -> Result<Counts, Fault> {
        match self.line.numbers() {
            [want] => {
                calls.clear();
                Ok(Counts {
                    want: *want,
                    left: *want,
                })
            }
            others => Err(Fault::Has(others.len())),
        }
    }

    // A call's line, of this list. Calls above the limit are read and not kept.
    fn called(&self, calls: &mut Calls, list: Counts) -> Result<Counts, Fault> {
        match self.line.numbers() {
            [kind, x, y, z] => {
                calls.keep([*kind, *x, *y, *z]);
                Ok(Counts {
                    want: list.want,
                    left: list.left.saturating_sub(1),
                })
            }
            others => Err(Fault::Has(others.len())),
        }
    }

    // Goes on to the next line, of this list or of the next.
    fn line_end(&mut self, calls: &mut Calls) -> Result<Option<u32>, Trouble> {
        let read = match self.list {
            None => self.opened(calls),
            Some(list) => self.called(calls, list),
        };
        let list = read.map_err(|fault| self.trouble(fault))?;
        self.line = self.line.after();
        if list.left == 0 {
            self.list = None;
            return Ok(Some(list.want));
        }
        self.list = Some(list);
        Ok(None)
    }

    // Takes one byte more. Where it ends a list, the answer is how many calls that has; they stay in `calls` until the next byte.
    pub fn take(&mut self, calls: &mut Calls, byte: u8) -> Result<Option<u32>, Trouble> {
        if byte == b'\n' {
            return self.line_end(calls);
        }
        let read = self.line.take(byte);
        read.map_err(|fault| self.trouble(fault))?;
        Ok(None)
    }

    // A list may not lack a line.
    fn lacking(&self) -> Result<(), Trouble> {
        let Some(list) = self.list else {
            return Ok(());
        };
        Err(Trouble::Short {
            place: self.line.place().saturating_sub(1),
            left: list.left,
            want: list.want,
        })
    }

    // The input is at its end: a last line may lack its end.
    pub fn end(&mut self, calls: &mut Calls) -> Result<Option<u32>, Trouble> {
        let mut whole = None;
        if !self.line.numbers().is_empty() {
            whole = self.line_end(calls)?;
        }
        self.lacking()?;
        Ok(whole)
    }
}
