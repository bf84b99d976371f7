// One call over lent cells: each kind has its function, and those that read a variable or seal a block stand here.
// The tables are lent and the counts go by value, each a parameter of its own: a rule of the project, for the original's `&mut self`.
#![tactic(auto)]

ghost use Rattle.std.specs.Prelude.{◌≡◌};
ghost use Rattle.entity.specs.Options.{value_of};
ghost use Rattle.definition.specs.Session.{State, use_var, seal, seal_all, answered, reply};
ghost use Rattle.reply.specs.Replies.{reply_of};
ghost use Rattle.calls.specs.Calls.{StateWith, Between, Answers, Replied};

use entity::Value;
use graph::GraphCells;
use kind::Kind;
use layout::Counts;
use reply::{Accepted, Refusal};

pub mod kind;

// Kind 6.
fn use_var(
    graph: &GraphCells,
    form: &mut [u32],
    work: &mut [u32],
    c: Counts,
    x: u32,
    y: u32,
) -> Result<Accepted, Refusal>
    requires { StateWith (Between graph.now form.old work.old c) }
    ensures { Answers graph.now form.old work.old graph.now form.new work.new c result
        (λ g s. use_var g s x y) }
{
    let var = reply::known_var(graph, x)?;
    let block = reply::known_block(graph, y)?;
    let (val, d) = ssa::use_var(graph, form, work, c, var, block);
    reply::accept(val.0, d)
}

// Kind 11. The answer counts the zeros that the log has more.
fn seal_block(
    graph: &mut [u32],
    form: &mut [u32],
    work: &mut [u32],
    c: Counts,
    x: u32,
) -> Result<Accepted, Refusal>
    requires { StateWith (Between graph.old form.old work.old c) }
    ensures { Answers graph.old form.old work.old graph.new form.new work.new c result
        (λ g s. seal g s x) }
{
    let cells = GraphCells { cells: graph };
    let block = reply::known_block(&cells, x)?;
    if cells.is_sealed(block) {
        return Err(Refusal::Sealed);
    }
    let n = form::zero_count(form);
    let d = ssa::seal_one_block(graph, form, work, c, block);
    let m = form::zero_count(form);
    reply::accept(m - n, d)
}

// Kind 12.
fn seal_all_blocks(
    graph: &mut [u32],
    form: &mut [u32],
    work: &mut [u32],
    c: Counts,
) -> Result<Accepted, Refusal>
    requires { StateWith (Between graph.old form.old work.old c) }
    ensures { Answers graph.old form.old work.old graph.new form.new work.new c result
        seal_all }
{
    let before = form::zero_count(form);
    let d = ssa::seal_all_blocks(graph, form, work, c);
    let after = form::zero_count(form);
    reply::accept(after - before, d)
}

// One call: each kind has its function. For kind 5 w is what the use at place y answered; the others do not read it.
pub fn one_call(
    graph: &mut [u32],
    form: &mut [u32],
    work: &mut [u32],
    c: Counts,
    kind: u32,
    x: u32,
    y: u32,
    z: u32,
    w: Option<Value>,
) -> Result<Accepted, Refusal>
    requires { StateWith (Between graph.old form.old work.old c) }
    ensures { (t : State) → (kind ≡ 5 → value_of w ≡ answered t.done y)
        → Between graph.old form.old work.old c t
        → Replied graph.new form.new work.new (reply_of c result) t.graph t.form (reply t.graph t.form t.done x y z kind) }
{
    let cells = GraphCells { cells: graph };
    match Kind::try_from(kind)? {
        Kind::DeclareBlock => declare::declare_block(graph, form, c, x),
        Kind::DeclareVar => declare::declare_var(graph, c, x, y),
        Kind::MakeValue => declare::make_value(&cells, form, c, x, y),
        Kind::Define => declare::define(&cells, form, c, x, y, z),
        Kind::DefineAnswer => declare::define_answer(&cells, form, c, x, z, w),
        Kind::UseVar => use_var(&cells, form, work, c, x, y),
        Kind::NewBranch => declare::new_branch(graph, form, c, x),
        Kind::NewDest => connect::new_dest(graph, c, x, y),
        Kind::AddPred => connect::add_pred(graph, c, x, y),
        Kind::DropPred => connect::drop_pred(graph, c, x, y),
        Kind::SealBlock => seal_block(graph, form, work, c, x),
        Kind::SealAllBlocks => seal_all_blocks(graph, form, work, c),
        Kind::HasAnyPredecessors => connect::has_any_predecessors(&cells, c, x),
        Kind::IsSealed => connect::is_sealed(&cells, c, x),
        Kind::OwnParam => declare::own_param(&cells, form, c, x, y),
        Kind::GiveArg => declare::give_arg(&cells, form, c, x, y, z),
        Kind::MarkVar => declare::mark_var_needs_stack_map(graph, form, c, x),
    }
}
