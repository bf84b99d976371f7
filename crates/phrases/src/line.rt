// What a dump tells, line by line. In words one of these may be several lines, or none.
use entity::{Described, Sort, Type};

// In letters, for programs, or in words, for people.
#[derive(Clone, Copy, PartialEq, Eq)]
pub enum Style {
    Letters,
    Words,
}

// A call of a list: its kind, and the numbers given with it. Any number may stand there.
#[derive(Clone, Copy)]
pub struct Call {
    pub kind: u32,
    pub x: u32,
    pub y: u32,
    pub z: u32,
}

// How many a session has of each. The caller made some of the values.
#[derive(Clone, Copy)]
pub struct Counts {
    pub blocks: u32,
    pub variables: u32,
    pub values: u32,
    pub made: u32,
    pub zeros: u32,
}

// What the call at this place is answered. Code 0 is accepted, and then the number tells more.
#[derive(Clone, Copy)]
pub struct Answer {
    pub place: usize,
    pub call: Call,
    pub code: u32,
    pub number: u32,
}

// What a value is. Its target is the value itself, or what replaces it.
#[derive(Clone, Copy)]
pub struct Value {
    pub value: u32,
    pub sort: Sort,
    pub ty: Type,
    pub block: u32,
    pub target: u32,
}

#[derive(Clone, Copy)]
pub enum Line<'a> {
    // A session of so many calls was run.
    Run { calls: usize },
    // A list was refused whole: it has more calls than these.
    Refused { limit: u32 },
    Counts(Counts),
    Answer(Answer),
    Value(Value),
    // What a zero holds.
    Bits { value: u32, bits: u128 },
    OfBlock { block: u32, tells: OfBlock<'a> },
    // A row of the zero log.
    Zero { row: usize, call: u32, block: u32 },
    // Those that stack maps must have.
    Mapped(Mapped<'a>),
    // The blocks in the order placed.
    Placed { blocks: &'a [u32] },
    End,
}

// A cell for each variable, not 0 if it is marked for stack maps; or for each value, with all that there is to know of it.
#[derive(Clone, Copy)]
pub enum Mapped<'a> {
    Variables(&'a [u32]),
    Values(&'a [u32]),
}

impl<'a> Mapped<'a> {
    pub(crate) fn cells(self) -> &'a [u32] {
        match self {
            Mapped::Variables(cells) => cells,
            Mapped::Values(cells) => cells,
        }
    }

    // Must stack maps have what this cell tells of?
    pub(crate) fn has(self, cell: u32) -> bool {
        match self {
            Mapped::Variables(_) => cell != 0,
            Mapped::Values(_) => Described::is_marked(cell),
        }
    }
}

// What a line tells of a block.
#[derive(Clone, Copy)]
pub enum OfBlock<'a> {
    Params {
        values: &'a [u32],
    },
    // It has a branch, with so many destinations.
    Branch {
        dests: usize,
    },
    Dest {
        place: usize,
        to: u32,
        args: &'a [u32],
    },
    Preds {
        blocks: &'a [u32],
    },
    Pending {
        variables: &'a [u32],
    },
    Sealed {
        sealed: bool,
    },
    // What it records last for the variable.
    Definition {
        variable: u32,
        value: u32,
    },
}
