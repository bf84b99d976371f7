// Looking a variable up: a visit of a block finds its definition along single predecessors, or makes a parameter and schedules what settles it.
// The three tables are lent and the counts go by value, each a parameter of its own: a rule of the project, for the original's `&mut self`. The variable
// and its type are two parameters, as in the original: in a record each line and clause that names one of them would only get longer.
#![tactic(auto)]

ghost use Rattle.std.specs.Prelude.{◌≡◌, List, ℕ, ◌<◌};
ghost use Rattle.entity.specs.Limits.{limits, value_room};
ghost use Rattle.definition.specs.Form.{Graph, Form};
ghost use Rattle.definition.specs.Read.{mark};
ghost use Rattle.meaning.specs.Machine.{Task, schedule};
ghost use Rattle.layout.specs.Layout.{Stacks};
ghost use Rattle.form.specs.Can.{Cells};
ghost use Rattle.lookup.specs.Walk.{WalkWith, CanWalk, whole_walk, Stops, CopyWith, CanCopy};
ghost use Rattle.lookup.specs.Find.{AllWith, CanUse, Visits, CanFind, Finds, BeginWith, CanBegin};

use entity::{Block, Sort, Value, Variable};
use graph::GraphCells;
use layout::{Call, Counts};

// Where a walk stopped, and the definition that it met there.
#[derive(Clone, Copy)]
pub struct Stop {
    pub block: Block,
    pub value: Option<Value>,
}

// Puts the value of the variable in the block on the stack of results, or schedules what finds it.
pub fn use_var_nonlocal(
    graph: &GraphCells,
    form: &mut [u32],
    work: &mut [u32],
    c: Counts,
    var: Variable,
    ty: u32,
    block: Block,
) -> Counts
    requires { AllWith (CanUse graph.now form.old work.old c var.0 ty block.0) }
    ensures { (g : Graph) → (s : Form) → (ts : List Task) → (rs : List ℕ)
        → CanUse graph.now form.old work.old c var.0 ty block.0 g s ts rs
        → Visits form.new work.new c.call result var.0 block.0 g s ts rs }
{
    if let Some(val) = form::definition(form, var, block) {
        return work::push_result(work, c, val);
    }
    let (val, from, d) = find_var(graph, form, work, c, var, ty, block);
    copy_back(graph, form, var, block, from, val);
    d
}

// Records the value in each block from the first up to the first meeting with `from`, which is left alone: on a ring of single predecessors it may be
// met again, and it has the value already.
fn copy_back(
    graph: &GraphCells,
    form: &mut [u32],
    var: Variable,
    block: Block,
    from: Block,
    val: Value,
)
    requires copy_with { CopyWith (CanCopy graph.now form.old var.0 block.0 from.0) }
    requires val_bound { val.0 < value_room limits }
    ensures { (g : Graph) → (s : Form) → (bs : List ℕ)
        → CanCopy graph.now form.old var.0 block.0 from.0 g s bs
        → Cells form.new (mark var.0 val.0 bs s) }
{
    let mut b = block;
    while b != from {
        form::record_def(form, var, b, val);
        let Some(pred) = graph.single_predecessor(b) else {
            return;
        };
        b = pred;
    }
}

// Walks over single predecessors until a definition, a block met before, or a block without one. Each step costs the same: what was met is marked.
fn walk(graph: &GraphCells, form: &[u32], var: Variable, block: Block) -> Stop
    requires { WalkWith (CanWalk graph.now form.now var.0 block.0) }
    ensures { (g : Graph) → (s : Form) → CanWalk graph.now form.now var.0 block.0 g s
        → Stops result (whole_walk g var.0 block.0 s) }
{
    // Fixed memory, cleared at each walk: no heap, and nothing is kept between walks.
    let mut visited = [false; entity::BLOCKS as usize];
    let mut b = block;
    while let Some(pred) = graph.single_predecessor(b) {
        let i = b.0 as usize;
        if visited[i] {
            break;
        }
        visited[i] = true;
        b = pred;
        if let Some(val) = form::definition(form, var, b) {
            return Stop {
                block: b,
                value: Some(val),
            };
        }
    }
    Stop {
        block: b,
        value: None,
    }
}

// Finds the most recent definition of the variable along single predecessors, or makes a parameter for it where the walk stopped. The parameter is
// recorded before any predecessor is read, so that a loop of blocks finds it. A block that is not sealed waits with its predecessors.
fn find_var(
    graph: &GraphCells,
    form: &mut [u32],
    work: &mut [u32],
    c: Counts,
    var: Variable,
    ty: u32,
    block: Block,
) -> (Value, Block, Counts)
    requires { AllWith (CanFind graph.now form.old work.old c var.0 ty block.0) }
    ensures { (g : Graph) → (s : Form) → (ts : List Task) → (rs : List ℕ)
        → CanFind graph.now form.old work.old c var.0 ty block.0 g s ts rs
        → Finds form.new work.new c.call result var.0 block.0 g s ts rs }
{
    let Stop { block: from, value } = walk(graph, form, var, block);
    if let Some(met) = value {
        let d = work::push_result(work, c, met);
        return (met, from, d);
    }
    let val = Value(c.values);
    let d = form::append_block_param(form, c, from, Sort::Param, ty);
    form::record_def(form, var, from, val);
    form::record_stack_map_binding(form, graph.is_marked(var), val);
    if graph.is_sealed(from) {
        let e = begin_predecessors_lookup(graph, work, d, val, from);
        return (val, from, e);
    }
    form::push_pending(form, var, from);
    let e = work::push_result(work, d, val);
    (val, from, e)
}

// Schedules the lookup in each predecessor, and what settles the sentinel after them. The call on top runs first, so the last predecessor is
// scheduled first.
pub fn begin_predecessors_lookup(
    graph: &GraphCells,
    work: &mut [u32],
    c: Counts,
    sentinel: Value,
    dest: Block,
) -> Counts
    requires { BeginWith (CanBegin graph.now work.old c sentinel.0 dest.0) }
    ensures { (result.values ≡ c.values) × (result.call ≡ c.call)
        × ((g : Graph) → (ts : List Task) → (rs : List ℕ) → CanBegin graph.now work.old c sentinel.0 dest.0 g ts rs
        → Stacks work.new result (schedule g sentinel.0 dest.0 ts) rs) }
{
    let mut d = work::push_call(work, c, Call::FinishPredecessorsLookup(sentinel, dest));
    let n = graph.predecessor_count(dest);
    for i in (0..n).rev() {
        let p = graph.predecessor(dest, i);
        d = work::push_call(work, d, Call::UseVar(p));
    }
    d
}
