// The lines in letters, for programs: a letter for what is told, then the numbers.
use crate::line::{Line, Mapped, OfBlock};
use crate::names::{Places, numbers};
use std::fmt;
use std::fmt::{Display, Write};

#[derive(Clone, Copy)]
pub struct Letters<'a>(pub Line<'a>);

impl Display for Letters<'_> {
    fn fmt<W: Write>(&self, f: &mut fmt::Formatter<W>) -> fmt::Result {
        match self.0 {
            Line::Run { .. } => writeln!(f, "S 0"),
            Line::Refused { .. } => writeln!(f, "S 2"),
            Line::Counts(c) => writeln!(
                f,
                "C {} {} {} {} {}",
                c.blocks, c.variables, c.values, c.made, c.zeros
            ),
            Line::Answer(a) => writeln!(f, "A {} {} {}", a.place, a.code, a.number),
            Line::Value(v) => writeln!(
                f,
                "V {} {} {} {} {}",
                v.value,
                u32::from(v.sort),
                v.ty.0,
                v.block,
                v.target
            ),
            Line::Bits { value, bits } => writeln!(f, "K {value} {bits:x}"),
            Line::OfBlock { block, tells } => write!(f, "{}", BlockLetters { block, tells }),
            Line::Zero { row, call, block } => writeln!(f, "Z {row} {call} {block}"),
            Line::Mapped(of) => writeln!(f, "{}{}", mapped(of), places(of)),
            Line::Placed { blocks } => writeln!(f, "O{}", numbers(blocks)),
            Line::End => writeln!(f, "END"),
        }
    }
}

fn mapped(of: Mapped<'_>) -> char {
    match of {
        Mapped::Variables(_) => 'M',
        Mapped::Values(_) => 'W',
    }
}

fn places(of: Mapped<'_>) -> Places<'_> {
    Places {
        before: " ",
        of,
        after: "",
    }
}

// A line of a block. Each style has a type for it, since a type is written in one way.
#[derive(Clone, Copy)]
struct BlockLetters<'a> {
    block: u32,
    tells: OfBlock<'a>,
}

impl Display for BlockLetters<'_> {
    fn fmt<W: Write>(&self, f: &mut fmt::Formatter<W>) -> fmt::Result {
        let block = self.block;
        match self.tells {
            OfBlock::Params { values } => writeln!(f, "P {block}{}", numbers(values)),
            OfBlock::Branch { dests } => writeln!(f, "B {block} {dests}"),
            OfBlock::Dest { place, to, args } => writeln!(
                f,
                "D {block} {place} {to}{}",
                numbers(args)
            ),
            OfBlock::Preds { blocks } => writeln!(f, "R {block}{}", numbers(blocks)),
            OfBlock::Pending { variables } => writeln!(f, "U {block}{}", numbers(variables)),
            OfBlock::Sealed { sealed } => writeln!(f, "E {block} {}", u8::from(sealed)),
            // As the cell has it, where 0 is none.
            OfBlock::Definition { variable, value } => {
                writeln!(f, "L {block} {variable} {}", u64::from(value) + 1)
            }
        }
    }
}
