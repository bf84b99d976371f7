// Rows of finished tables, read where they lie: a block's parameters, or the arguments of a destination. Nothing is copied, and no such call has a loop.
// And which values are recorded for stack maps.
#![tactic(auto)]

ghost use Rattle.std.specs.Prelude.{◌≡◌, ◌<◌, ◌^◌, drop};
ghost use Rattle.reader.specs.Marks.{IsRecorded, mark_code, mark_number, next_of};
ghost use Rattle.reader.specs.Rows.{FindsRow, IsRow, Located, code_of, named, number, span_code, span_length, span_start, table_of};

use entity::{Block, Branch, Described, Value};

// What is asked for: the parameters of a block, or the arguments of a branch's destination by its place.
#[derive(Clone, Copy)]
pub enum Asked {
    Params(Block),
    Args(Branch, u32),
}

// Where the entries of a row lie in its table.
#[derive(Clone, Copy, Debug, PartialEq, Eq)]
pub struct Span {
    pub start: usize,
    pub length: usize,
}

// Are the numbers below the limits?
fn named(asked: Asked) -> bool
    ensures { result ≡ named asked }
{
    match asked {
        Asked::Params(b) => b.0 < entity::BLOCKS,
        Asked::Args(p, i) => p.0 < entity::BLOCKS && i < entity::DESTS,
    }
}

// Which row of its table it is.
fn number(asked: Asked) -> usize
    ensures { (result ≡ number asked) × (result < 2 ^ 36) }
{
    match asked {
        Asked::Params(b) => b.0 as usize,
        Asked::Args(p, i) => p.0 as usize * entity::DESTS as usize + i as usize,
    }
}

// Where the row lies in its table, however long that is and whatever it holds; none if the table hasn't the row.
pub fn locate(table: &[u32], asked: Asked) -> Option<Span>
    ensures { Located table.now asked (span_code result) (span_start result) (span_length result) }
{
    if !named(asked) {
        return None;
    }
    let head = number(asked) * entity::PARAM_ROW;
    if table.len() < head + entity::PARAM_ROW {
        return None;
    }
    let length = table[head] as usize;
    if entity::PARAM_ROOM < length {
        return None;
    }
    Some(Span {
        start: head + 1,
        length,
    })
}

// Of the two tables, the one to look in.
fn table_of<'a>(params: &'a [u32], args: &'a [u32], asked: Asked) -> &'a [u32]
    ensures { result ≡ table_of params.entry args.entry asked }
{
    match asked {
        Asked::Params(_) => params,
        Asked::Args(_, _) => args,
    }
}

// The row itself, a part of the table that has it; none if there is no such row: so a row that is there and empty can be told apart.
pub fn find_row<'a>(params: &'a [u32], args: &'a [u32], asked: Asked) -> Option<&'a [u32]>
    ensures { FindsRow (table_of params.entry args.entry asked) asked result }
{
    let table = table_of(params, args, asked);
    let span = locate(table, asked)?;
    Some(&table[span.start..span.start + span.length])
}

// 6 if there is no such row, else 0: the code by which docs/RULES.md tells the two apart.
pub fn row_code(params: &[u32], args: &[u32], asked: Asked) -> u32
    ensures { result ≡ code_of (table_of params.entry args.entry asked).now asked }
{
    match find_row(params, args, asked) {
        Some(_) => 0,
        None => 6,
    }
}

// The row itself; an empty part, from the table's beginning, if there is no such row.
pub fn row<'a>(params: &'a [u32], args: &'a [u32], asked: Asked) -> &'a [u32]
    ensures { IsRow (table_of params.entry args.entry asked) asked result }
{
    find_row(params, args, asked).unwrap_or(&table_of(params, args, asked)[..0])
}

// Whether a value is recorded for stack maps, by its cell in the lent descriptions; none if there is no such value.
pub fn recorded(described: &[u32], value: Value) -> Option<bool>
    ensures { IsRecorded described.now value.0 (mark_code result) (mark_number result) }
{
    let cell = described.get(value.0 as usize)?;
    Some(Described::is_marked(*cell))
}

// The first recorded value from this number on; a number past the lent descriptions if there is none. So they are walked in order.
pub fn next_recorded(described: &[u32], from: usize) -> usize
    ensures { result ≡ next_of from (drop from described.now) }
{
    let Some(rest) = described.get(from..) else {
        return from;
    };
    let marked = rest.iter().position(|cell| Described::is_marked(*cell));
    from + marked.unwrap_or(rest.len())
}
