// What a call answers: it is refused, for a reason that has a code, or accepted, with a number and the counts after it; and the checks that calls of several
// kinds have.
#![tactic(auto)]

ghost use Rattle.std.specs.Prelude.{◌≡◌, ◌≤◌, ◌<◌, Ok, MatchResult};
ghost use Rattle.entity.specs.Limits.{limits};
ghost use Rattle.entity.specs.Types.{type_count};
ghost use Rattle.definition.specs.Session.{no_block, no_var, no_branch};
ghost use Rattle.reply.specs.declared.Refusal.{Refusal};
ghost use Rattle.reply.specs.Replies.{refusal_code, reply_of, taken};
ghost use Rattle.reply.specs.Known.{Found, Lost};

use entity::{Block, Branch, Type, Value, Variable};
use graph::GraphCells;
use layout::Counts;

// Why a call is refused, in the order of the codes.
#[derive(Clone, Copy, Debug, PartialEq, Eq)]
pub enum Refusal {
    UnknownKind,
    Full,
    Skips,
    Absent,
    OtherType,
    Sealed,
    Branched,
    DestsFull,
    Declared,
    DeclaredHere,
    Unrelated,
    Begun,
    OwnFull,
    Defined,
    Late,
}

impl Refusal {
    // As docs/RULES.md numbers them.
    pub fn code(self) -> u32
        ensures { result ≡ refusal_code self }
    {
        match self {
            Refusal::UnknownKind => 3,
            Refusal::Full => 4,
            Refusal::Skips => 5,
            Refusal::Absent => 6,
            Refusal::OtherType => 7,
            Refusal::Sealed => 8,
            Refusal::Branched => 9,
            Refusal::DestsFull => 10,
            Refusal::Declared => 11,
            Refusal::DeclaredHere => 12,
            Refusal::Unrelated => 13,
            Refusal::Begun => 17,
            Refusal::OwnFull => 18,
            Refusal::Defined => 19,
            Refusal::Late => 20,
        }
    }
}

// What an accepted call answers: its number, and the counts after it. A refused one changes no count, so its caller goes on with its own.
#[derive(Clone, Copy)]
pub struct Accepted {
    pub number: u32,
    pub counts: Counts,
}

// The answer of an accepted call.
pub fn accept(number: u32, counts: Counts) -> Result<Accepted, Refusal>
    ensures { result ≡ Ok (taken number counts) }
{
    Ok(Accepted { number, counts })
}

// What is written of a call, a number for its code beside its number, as the lists that C lends have it; and the counts after it.
#[derive(Clone, Copy)]
pub struct Reply {
    pub code: u32,
    pub number: u32,
    pub counts: Counts,
}

impl Reply {
    // Code 0 is for a call that was not refused. A refused one has the number 0 and leaves the counts as they were.
    pub fn new(answer: Result<Accepted, Refusal>, before: Counts) -> Reply
        ensures { result ≡ reply_of before answer }
    {
        match answer {
            Ok(accepted) => Reply {
                code: 0,
                number: accepted.number,
                counts: accepted.counts,
            },
            Err(refusal) => Reply {
                code: refusal.code(),
                number: 0,
                counts: before,
            },
        }
    }
}

// Blocks are numbered from 0 without a gap, so those that are there are below their count. (Each kind of number has a check of its own, two lines long: one
// for all would take the count and the type, and its promise would be longer than these.)
pub fn known_block(graph: &GraphCells, b: u32) -> Result<Block, Refusal>
    ensures { MatchResult result (λ block. Found graph.now b limits.blocks block.0 no_block) (λ e. Lost graph.now b e no_block) }
{
    if graph.block_count() <= b {
        return Err(Refusal::Absent);
    }
    Ok(Block(b))
}

// So are variables.
pub fn known_var(graph: &GraphCells, v: u32) -> Result<Variable, Refusal>
    ensures { MatchResult result (λ var. Found graph.now v limits.variables var.0 no_var) (λ e. Lost graph.now v e no_var) }
{
    if graph.variable_count() <= v {
        return Err(Refusal::Absent);
    }
    Ok(Variable(v))
}

// A branch bears its block's number.
pub fn known_branch(graph: &GraphCells, p: u32) -> Result<Branch, Refusal>
    ensures { MatchResult result (λ branch. Found graph.now p limits.blocks branch.0 no_branch) (λ e. Lost graph.now p e no_branch) }
{
    let block = known_block(graph, p)?;
    if !graph.has_branch(block) {
        return Err(Refusal::Absent);
    }
    Ok(Branch::from(block))
}

// Values are numbered without a gap too, and their count travels beside the cells.
pub fn known_value(c: Counts, x: u32) -> Result<Value, Refusal>
    ensures { MatchResult result (λ val. (val.0 ≡ x) × (val.0 < c.values)) (λ e. (e ≡ Refusal.Absent) × (c.values ≤ x)) }
{
    if c.values <= x {
        return Err(Refusal::Absent);
    }
    Ok(Value(x))
}

pub fn known_type(n: u32) -> Result<Type, Refusal>
    ensures { MatchResult result (λ ty. (ty.0 ≡ n) × (ty.0 < type_count)) (λ e. (e ≡ Refusal.Absent) × (type_count ≤ n)) }
{
    Type::from_number(n).ok_or(Refusal::Absent)
}
