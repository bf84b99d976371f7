// What a session leaves, and every read of it that printing makes. Past a table's end a cell is 0 and a row is empty, so that no count can lead astray.
use entity::{Block, Branch, Described, Sort, Type, Variable};
use phrases::line::{Answer, Call, Counts, Line, Mapped, OfBlock, Value};

// The calls that were run: their kinds, xs, ys and zs; their codes and their answers, each in a room for as many as a session takes; and the tables.
#[derive(Clone, Copy)]
pub struct Left<'a> {
    pub kinds: &'a [u32],
    pub xs: &'a [u32],
    pub ys: &'a [u32],
    pub zs: &'a [u32],
    pub codes: &'a [u32],
    pub numbers: &'a [u32],
    pub graph: &'a [u32],
    pub form: &'a [u32],
}

// Cell i of the table that starts at `start`.
fn cell(cells: &[u32], start: usize, i: usize) -> u32 {
    let at = start.saturating_add(i);
    cells.get(at).copied().unwrap_or(0)
}

// The first `count` cells of the table that starts at `start`.
fn table(cells: &[u32], start: usize, count: usize) -> &[u32] {
    let rest = cells.get(start..).unwrap_or(&[]);
    rest.get(..count).unwrap_or(rest)
}

// The entries of the row whose count stands at `at`, before them.
fn row(cells: &[u32], at: usize) -> &[u32] {
    let count = cell(cells, at, 0) as usize;
    table(cells, at.saturating_add(1), count)
}

impl<'a> Left<'a> {
    pub(crate) fn call_count(&self) -> usize {
        self.kinds.len()
    }

    pub(crate) fn block_count(&self) -> u32 {
        cell(self.graph, layout::BLOCK_COUNT, 0)
    }

    pub(crate) fn variable_count(&self) -> u32 {
        cell(self.graph, layout::TYPES, 0)
    }

    pub(crate) fn value_count(&self) -> u32 {
        cell(self.form, layout::VALUE_COUNT, 0)
    }

    pub(crate) fn counts(&self) -> Line<'a> {
        Line::Counts(Counts {
            blocks: self.block_count(),
            variables: self.variable_count(),
            values: self.value_count(),
            made: cell(self.form, layout::MADE_COUNT, 0),
            zeros: cell(self.form, layout::ZERO_CALLS, 0),
        })
    }

    fn call(&self, place: usize) -> Call {
        Call {
            kind: cell(self.kinds, 0, place),
            x: cell(self.xs, 0, place),
            y: cell(self.ys, 0, place),
            z: cell(self.zs, 0, place),
        }
    }

    pub(crate) fn answer(&self, place: usize) -> Line<'a> {
        Line::Answer(Answer {
            place,
            call: self.call(place),
            code: cell(self.codes, 0, place),
            number: cell(self.numbers, 0, place),
        })
    }

    fn described(&self, value: u32) -> Described {
        Described::from_cell(cell(self.form, layout::DESCRIBED, value as usize))
    }

    pub(crate) fn value(&self, value: u32) -> Line<'a> {
        let d = self.described(value);
        Line::Value(Value {
            value,
            sort: d.sort,
            ty: Type(d.ty),
            block: d.block.0,
            target: cell(self.form, layout::TARGET, value as usize),
        })
    }

    // What a zero holds: the bits of its type's unset value.
    pub(crate) fn bits(&self, value: u32) -> Option<Line<'a>> {
        let d = self.described(value);
        if d.sort != Sort::Zero {
            return None;
        }
        let bits = Type(d.ty).unset_bits();
        Some(Line::Bits {
            value,
            bits: u128::from(bits.high) << 64 | u128::from(bits.low),
        })
    }

    pub(crate) fn params(&self, block: u32) -> OfBlock<'a> {
        let values = row(self.form, layout::params_at(Block(block)));
        OfBlock::Params { values }
    }

    pub(crate) fn dests(&self, block: u32) -> &'a [u32] {
        row(self.graph, layout::dests_at(Branch(block)))
    }

    // The branch itself, if the block has one.
    pub(crate) fn branch(&self, block: u32) -> Option<OfBlock<'a>> {
        if cell(self.graph, layout::BRANCHES, block as usize) == 0 {
            return None;
        }
        let dests = self.dests(block).len();
        Some(OfBlock::Branch { dests })
    }

    // The destination at this place, which is the block `to`, with its arguments.
    pub(crate) fn dest(&self, block: u32, place: usize, to: u32) -> OfBlock<'a> {
        // A place of more than 32 bits is past the table's end, as the largest is.
        let i = u32::try_from(place).unwrap_or(u32::MAX);
        let args = row(self.form, layout::args_at(Branch(block), i));
        OfBlock::Dest { place, to, args }
    }

    pub(crate) fn preds(&self, block: u32) -> OfBlock<'a> {
        let blocks = row(self.graph, layout::preds_at(Block(block)));
        OfBlock::Preds { blocks }
    }

    pub(crate) fn pending(&self, block: u32) -> OfBlock<'a> {
        let variables = row(self.form, layout::pending_at(Block(block)));
        OfBlock::Pending { variables }
    }

    pub(crate) fn sealed(&self, block: u32) -> OfBlock<'a> {
        let sealed = cell(self.graph, layout::SEALED, block as usize) != 0;
        OfBlock::Sealed { sealed }
    }

    // What the block records last for the variable, if anything.
    pub(crate) fn definition(&self, block: u32, variable: u32) -> Option<OfBlock<'a>> {
        let at = layout::def_at(Variable(variable), Block(block));
        // The cell has the value plus one, 0 for none.
        let value = cell(self.form, at, 0).checked_sub(1)?;
        Some(OfBlock::Definition { variable, value })
    }

    pub(crate) fn zero_calls(&self) -> &'a [u32] {
        row(self.form, layout::ZERO_CALLS)
    }

    pub(crate) fn zero_blocks(&self) -> &'a [u32] {
        row(self.form, layout::ZERO_BLOCKS)
    }

    // The variables marked for stack maps.
    pub(crate) fn marks(&self) -> Line<'a> {
        let variables = self.variable_count() as usize;
        Line::Mapped(Mapped::Variables(table(self.graph, layout::MARKS, variables)))
    }

    // The values recorded for them.
    pub(crate) fn records(&self) -> Line<'a> {
        let values = self.value_count() as usize;
        Line::Mapped(Mapped::Values(table(self.form, layout::DESCRIBED, values)))
    }

    pub(crate) fn placed(&self) -> Line<'a> {
        let blocks = row(self.form, layout::PLACED);
        Line::Placed { blocks }
    }
}
