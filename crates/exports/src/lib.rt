// What C and Rust link: the public calls under names of their own.
#![tactic(auto)]

ghost use Rattle.std.specs.Prelude.{◌≡◌, drop};
ghost use Rattle.alias.specs.Answer.{code_of as resolved_code, number_of as resolved_number};
ghost use Rattle.definition.specs.Resolve.{Resolved};
ghost use Rattle.draw.specs.Draws.{Draws, told_code, told_length};
ghost use Rattle.layout.specs.Outcome.{lent};
ghost use Rattle.reader.specs.Marks.{IsRecorded, mark_code, mark_number, next_of};
ghost use Rattle.reader.specs.Rows.{Located, span_code, span_length, span_start};
ghost use Rattle.reader.specs.declared.Asked.TheVariants.{Params, Args};
ghost use Rattle.session.specs.Ends.{Ended};
ghost use Rattle.exports.specs.Told.{TypeTold, told};

use alias::Unresolved;
use draw::Undrawn;
use entity::{Block, Branch, Type, Value};
use reader::{Asked, Span};

// Raised when an exported call takes, answers or leaves something else, or what it leaves stands for something else: a host built for another version
// refuses to start.
pub const VERSION: u32 = 6;

// Kinds of call are numbered from 1 to this.
pub const KINDS: u32 = 17;

// Sorts of value are numbered from 0.
pub const SORTS: u32 = 4;

// The codes of what C gets as a number: all is well; what is asked for isn't there.
const OK: u32 = 0;

const ABSENT: u32 = 6;

const TOLD: [u32; 13] = [
    VERSION,
    entity::BLOCKS,
    entity::VARIABLES,
    entity::DESTS,
    entity::MADE,
    entity::CALLS,
    entity::GRAPH_NEED as u32,
    entity::FORM_NEED as u32,
    entity::WORK_NEED as u32,
    KINDS,
    Type::COUNT,
    SORTS,
    entity::OWN_PARAMS,
];

// Code and number of an answer, as C sees them: it has no Option and no Result.
#[repr(C)]
#[derive(Clone, Copy)]
pub struct SangvirebAnswer {
    pub code: u32,
    pub number: u32,
}

impl SangvirebAnswer {
    fn found(number: u32) -> SangvirebAnswer
        ensures { (result.code ≡ 0) × (result.number ≡ number) }
    {
        SangvirebAnswer { code: OK, number }
    }

    fn refused(code: u32) -> SangvirebAnswer
        ensures { (result.code ≡ code) × (result.number ≡ 0) }
    {
        SangvirebAnswer { code, number: 0 }
    }
}

// What resolving a value answers.
impl From<Result<Value, Unresolved>> for SangvirebAnswer {
    ghost from_gives = { λ r a. (a.code ≡ resolved_code r) × (a.number ≡ resolved_number r) };

    fn from(resolved: Result<Value, Unresolved>) -> SangvirebAnswer {
        match resolved {
            Ok(value) => SangvirebAnswer::found(value.0),
            Err(why) => SangvirebAnswer::refused(why.code()),
        }
    }
}

// Whether a value that is there is recorded, 1 or 0.
impl From<Option<bool>> for SangvirebAnswer {
    ghost from_gives = { λ r a. (a.code ≡ mark_code r) × (a.number ≡ mark_number r) };

    fn from(recorded: Option<bool>) -> SangvirebAnswer {
        match recorded {
            Some(is) => SangvirebAnswer::found(u32::from(is)),
            None => SangvirebAnswer::refused(ABSENT),
        }
    }
}

// Where a row's entries lie in its table, as C sees it. With code 6 there is no such row, and no entry.
#[repr(C)]
#[derive(Clone, Copy)]
pub struct SangvirebSpan {
    pub code: u32,
    pub start: usize,
    pub length: usize,
}

impl From<Option<Span>> for SangvirebSpan {
    ghost from_gives = { λ r s. (s.code ≡ span_code r) × (s.start ≡ span_start r) × (s.length ≡ span_length r) };

    fn from(located: Option<Span>) -> SangvirebSpan {
        match located {
            Some(Span { start, length }) => SangvirebSpan {
                code: OK,
                start,
                length,
            },
            None => SangvirebSpan {
                code: ABSENT,
                start: 0,
                length: 0,
            },
        }
    }
}

// Code and length of a picture, as C sees them.
#[repr(C)]
#[derive(Clone, Copy)]
pub struct SangvirebDrawn {
    pub code: u32,
    pub length: usize,
}

impl From<Result<usize, Undrawn>> for SangvirebDrawn {
    ghost from_gives = { λ r d. (d.code ≡ told_code r) × (d.length ≡ told_length r) };

    fn from(drawn: Result<usize, Undrawn>) -> SangvirebDrawn {
        match drawn {
            Ok(length) => SangvirebDrawn { code: OK, length },
            Err(why) => SangvirebDrawn {
                code: why.code(),
                length: 0,
            },
        }
    }
}

// A type, as C sees it: the number of its lane's type, how many lanes, the width in bytes; where a zero takes two steps, the number of the first one's type
// plus one, else 0; the bits of its unset value, which a zero holds, the low 64 and the high 64.
#[repr(C)]
#[derive(Clone, Copy)]
pub struct SangvirebType {
    pub lane: u32,
    pub lanes: u32,
    pub width: u32,
    pub step: u32,
    pub low: u64,
    pub high: u64,
}

impl From<Type> for SangvirebType {
    ghost from_gives = { λ t r. TypeTold t.0 r };

    fn from(t: Type) -> SangvirebType {
        let bits = t.unset_bits();
        SangvirebType {
            lane: t.lane().0,
            lanes: t.lanes(),
            width: t.width(),
            step: t.step_plus_one(),
            low: bits.low,
            high: bits.high,
        }
    }
}

// A session over lent lists: crates/session says what it answers and leaves.
#[unsafe(no_mangle)]
pub extern "C" fn sangvireb_session(
    kinds: &[u32],
    xs: &[u32],
    ys: &[u32],
    zs: &[u32],
    codes: &mut [u32],
    numbers: &mut [u32],
    graph: &mut [u32],
    form: &mut [u32],
    work: &mut [u32],
) -> u32
    ensures { Ended kinds.now xs.now ys.now zs.now
        (lent codes.old numbers.old graph.old form.old work.old)
        (lent codes.new numbers.new graph.new form.new work.new) result }
{
    match session::session(kinds, xs, ys, zs, codes, numbers, graph, form, work) {
        Ok(()) => OK,
        Err(why) => why.code(),
    }
}

// Follows alias targets: crates/alias says what it answers.
#[unsafe(no_mangle)]
pub extern "C" fn sangvireb_resolve(targets: &[u32], value: u32) -> SangvirebAnswer
    ensures { Resolved targets.now value result.code result.number }
{
    alias::resolve(targets, Value(value)).into()
}

// The parameters of a block, in the lent table of parameters: crates/reader says where.
#[unsafe(no_mangle)]
pub extern "C" fn sangvireb_params(params: &[u32], block: u32) -> SangvirebSpan
    ensures { Located params.now (Params record { 0 = block }) result.code result.start result.length }
{
    reader::locate(params, Asked::Params(Block(block))).into()
}

// The arguments of a branch's destination by its place, in the lent table of arguments.
#[unsafe(no_mangle)]
pub extern "C" fn sangvireb_args(args: &[u32], branch: u32, place: u32) -> SangvirebSpan
    ensures { Located args.now (Args record { 0 = branch } place) result.code result.start result.length }
{
    reader::locate(args, Asked::Args(Branch(branch), place)).into()
}

// Is the value recorded for stack maps, by the lent descriptions of the values?
#[unsafe(no_mangle)]
pub extern "C" fn sangvireb_recorded(described: &[u32], value: u32) -> SangvirebAnswer
    ensures { IsRecorded described.now value result.code result.number }
{
    reader::recorded(described, Value(value)).into()
}

// The first value from this number on that is; a number past the descriptions if there is none.
#[unsafe(no_mangle)]
pub extern "C" fn sangvireb_next_recorded(described: &[u32], from: usize) -> usize
    ensures { result ≡ next_of from (drop from described.now) }
{
    reader::next_recorded(described, from)
}

// Draws finished tables: crates/draw says what it answers and writes.
#[unsafe(no_mangle)]
pub extern "C" fn sangvireb_draw(graph: &[u32], form: &[u32], buffer: &mut [u8]) -> SangvirebDrawn
    ensures { Draws graph.now form.now buffer.old buffer.new result.code result.length }
{
    draw::draw(graph, form, buffer).into()
}

// What there is to know of a type, by its number. A number that names no type has no lanes, no width and no bits.
#[unsafe(no_mangle)]
pub extern "C" fn sangvireb_type(ty: u32) -> SangvirebType
    ensures { TypeTold ty result }
{
    Type(ty).into()
}

// Tells a host what this library was built for. The places keep their meaning from version to version; a place past them gets 0.
#[unsafe(no_mangle)]
pub extern "C" fn sangvireb_limit(which: u32) -> u32
    ensures { result ≡ told which }
{
    TOLD.get(which as usize).copied().unwrap_or(0)
}
