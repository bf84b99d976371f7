// The lines in words, for people. What there is nothing to tell of has no line.
use crate::line::{Answer, Call, Line, Mapped, OfBlock, Value};
use crate::names::{Name, Places, Row, numbers};
use entity::{Sort, Type};
use std::fmt;
use std::fmt::{Display, Write};

#[derive(Clone, Copy)]
pub struct Words<'a>(pub Line<'a>);

impl Display for Words<'_> {
    fn fmt<W: Write>(&self, f: &mut fmt::Formatter<W>) -> fmt::Result {
        match self.0 {
            Line::Run { calls } => writeln!(f, "run, calls: {calls}"),
            Line::Refused { limit } => writeln!(f, "refused whole (2): more than {limit} calls"),
            Line::Counts(c) => writeln!(
                f,
                "blocks: {}, variables: {}, values: {} (made: {}, zeros: {})",
                c.blocks, c.variables, c.values, c.made, c.zeros
            ),
            Line::Answer(a) => { writeln!(f, "call {}:{}{}", a.place, Asked(a.call), Answered(a)) }
            Line::Value(v) => writeln!(f, "v{}: {} {}{}", v.value, Name(v.ty), Origin(v), Alias(v)),
            Line::Bits { value, bits } => writeln!(f, "v{value} holds bits {bits:x}"),
            Line::OfBlock { block, tells } => write!(f, "{}", BlockWords { block, tells }),
            Line::Zero { call, block, .. } => {
                writeln!(f, "call {call} added a zero in block {block}")
            }
            Line::Mapped(of) => write!(f, "{}", places(of)),
            Line::Placed { blocks: [] } => Ok(()),
            Line::Placed { blocks } => {
                writeln!(f, "blocks in the order placed:{}", numbers(blocks))
            }
            Line::End => writeln!(f),
        }
    }
}

fn values(numbers: &[u32]) -> Row<'_> {
    Row { of: "v", numbers }
}

fn places(of: Mapped<'_>) -> Places<'_> {
    let (before, after) = match of {
        Mapped::Variables(_) => ("variable ", " is marked for stack maps\n"),
        Mapped::Values(_) => ("v", " is recorded for stack maps\n"),
    };
    Places { before, of, after }
}

// A line of a block. Each style has a type for it, since a type is written in one way.
#[derive(Clone, Copy)]
struct BlockWords<'a> {
    block: u32,
    tells: OfBlock<'a>,
}

impl Display for BlockWords<'_> {
    fn fmt<W: Write>(&self, f: &mut fmt::Formatter<W>) -> fmt::Result {
        let block = self.block;
        match self.tells {
            OfBlock::Params { values: [] } => Ok(()),
            OfBlock::Params { values: v } => {
                writeln!(f, "block {block} has parameters{}", values(v))
            }
            OfBlock::Branch { dests: 0 } => writeln!(f, "branch of block {block} -> nowhere"),
            // The lines of its destinations tell of it.
            OfBlock::Branch { .. } => Ok(()),
            OfBlock::Dest { to, args: [], .. } => {
                writeln!(f, "branch of block {block} -> block {to}")
            }
            OfBlock::Dest { to, args, .. } => {
                writeln!(
                    f,
                    "branch of block {block} -> block {to} with{}",
                    values(args)
                )
            }
            OfBlock::Preds { blocks: [] } => Ok(()),
            OfBlock::Preds { blocks } => {
                writeln!(f, "block {block} has predecessors{}", numbers(blocks))
            }
            OfBlock::Pending { variables: [] } => Ok(()),
            OfBlock::Pending { variables } => {
                writeln!(
                    f,
                    "block {block} has pending variables{}",
                    numbers(variables)
                )
            }
            OfBlock::Sealed { sealed: false } => writeln!(f, "block {block} is not sealed"),
            OfBlock::Sealed { sealed: true } => writeln!(f, "block {block} is sealed"),
            OfBlock::Definition { variable, value } => {
                writeln!(f, "variable {variable} in block {block} is v{value}")
            }
        }
    }
}

// What a call asks, by its kind. It need not be one that there is, and is then told with all its numbers. Kinds stay numbers here: a list may hold any
// number, and this crate knows no more of a call than its numbers.
#[derive(Clone, Copy)]
struct Asked(Call);

impl Display for Asked {
    fn fmt<W: Write>(&self, f: &mut fmt::Formatter<W>) -> fmt::Result {
        let Call { kind, x, y, z } = self.0;
        let ty = Name(Type(y));
        match kind {
            1 => write!(f, " declare block {x}"),
            2 => write!(f, " declare variable {x} of type {ty}"),
            3 => write!(f, " make a value of type {ty} in block {x}"),
            4 => write!(f, " define variable {x} as v{y} in block {z}"),
            5 => write!(
                f,
                " define variable {x} as the answer of call {y} in block {z}"
            ),
            6 => write!(f, " use of variable {x} in block {y}"),
            7 => write!(f, " make a branch in block {x}"),
            8 => write!(f, " add block {y} to the branch of block {x}"),
            9 => write!(f, " declare block {y} a predecessor of block {x}"),
            10 => write!(f, " remove block {y} from the predecessors of block {x}"),
            11 => write!(f, " seal block {x}"),
            12 => write!(f, " seal all blocks"),
            13 => write!(f, " has block {x} any predecessors"),
            14 => write!(f, " is block {x} sealed"),
            15 => write!(f, " give block {x} a parameter of type {ty}"),
            16 => write!(
                f,
                " give v{y} to destination {z} of the branch of block {x}"
            ),
            17 => write!(f, " mark variable {x} for stack maps"),
            _ => write!(f, " kind {kind} with {x}, {y}, {z}"),
        }
    }
}

// What it is answered. Calls of the kinds left out answer what they were given. Kinds and codes stay numbers, as above.
#[derive(Clone, Copy)]
struct Answered(Answer);

impl Display for Answered {
    fn fmt<W: Write>(&self, f: &mut fmt::Formatter<W>) -> fmt::Result {
        let Answer {
            call,
            code,
            number,
            ..
        } = self.0;
        if code != 0 {
            return write!(f, ": refused ({code}){}", reason(code));
        }
        match call.kind {
            3 | 5 | 15 => write!(f, ": v{number}"),
            6 => write!(f, " answered v{number}"),
            8 | 16 => write!(f, ", at place {number}"),
            9 => write!(f, ", {number} in all"),
            10 => write!(f, ", from place {number}"),
            11 | 12 => write!(f, ", zeros added: {number}"),
            13 | 14 => write!(f, ": {number}"),
            _ => Ok(()),
        }
    }
}

// Why a call is refused, by its code. It stays a number, since that is what the table of codes has, and any number may stand there.
fn reason(code: u32) -> &'static str {
    match code {
        3 => ", there is no such kind",
        4 => ", the limit is reached",
        5 => ", a number below it is not declared yet",
        6 => ", something that it names is not there",
        7 => ", the types differ",
        8 => ", the block is sealed",
        9 => ", the block has a branch",
        10 => ", the branch has all its destinations",
        11 => ", the branch is declared to a block",
        12 => ", the branch is declared to this block",
        13 => ", the branch does not lead there, or is not declared there",
        17 => ", the block is sealed, has a predecessor or a pending variable",
        18 => ", the block can take no more of the caller's",
        19 => ", the variable has a definition already",
        20 => ", the block's branch was declared before",
        _ => "",
    }
}

// How a value came to be, and where.
#[derive(Clone, Copy)]
struct Origin(Value);

impl Display for Origin {
    fn fmt<W: Write>(&self, f: &mut fmt::Formatter<W>) -> fmt::Result {
        let block = self.0.block;
        match self.0.sort {
            Sort::Made => write!(f, "made in block {block}"),
            Sort::Param => write!(f, "parameter of block {block}"),
            Sort::Zero => write!(f, "zero of block {block}"),
            Sort::Caller => write!(f, "caller's parameter of block {block}"),
        }
    }
}

// What replaces a value, if anything does.
#[derive(Clone, Copy)]
struct Alias(Value);

impl Display for Alias {
    fn fmt<W: Write>(&self, f: &mut fmt::Formatter<W>) -> fmt::Result {
        let Value { value, target, .. } = self.0;
        if value == target {
            return Ok(());
        }
        write!(f, ", replaced by v{target}")
    }
}
