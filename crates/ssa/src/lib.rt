// Reading a variable, and sealing a block: the rest of the original's ssa.rs, in its order and with its names.
// The three tables are lent and the counts go by value, each a parameter of its own: a rule of the project, for the original's `&mut self`.
#![tactic(auto)]

ghost use Rattle.std.specs.Prelude.{◌≡◌, not, List, ◌∷◌, ℕ, ◌<◌, eqb, length};
ghost use Rattle.entity.specs.Limits.{limits, value_room};
ghost use Rattle.definition.specs.Base.{up_from};
ghost use Rattle.definition.specs.Form.{Graph, Form};
ghost use Rattle.definition.specs.Read.{write};
ghost use Rattle.definition.specs.Session.{mark_sealed, seal_form, seal_each};
ghost use Rattle.meaning.specs.Machine.{Task, Conf, conf, turn};
ghost use Rattle.graph.specs.Seen.{Seen};
ghost use Rattle.form.specs.Can.{Ex, Cells, HasDef};
ghost use Rattle.ssa.specs.Run.{TurnWith, RunWith, UnderWay, CanRun, Ran};
ghost use Rattle.ssa.specs.Use.{StateWith, AtRest, CanRead, HasRead, CanFill, HasFilled, CanSeal, HasSealed, Marked};

use entity::{Block, Branch, Value, Variable};
use graph::GraphCells;
use layout::{Call, Counts};

// The value is the variable's definition in the block.
pub fn def_var(form: &mut [u32], var: Variable, val: Value, block: Block)
    requires ex { Ex (HasDef form.old var.0 block.0) }
    requires val_bound { val.0 < value_room limits }
    ensures { (s : Form) → HasDef form.old var.0 block.0 s
        → Cells form.new (write var.0 block.0 val.0 s) }
{
    form::record_def(form, var, block, val);
}

// The value of the variable in the block. Mostly it is recorded there, so that is tested first: then no stack is touched.
// Else the machine makes the first visit too, so that there is one place where blocks are visited, and the visit is compiled into the machine's loop.
pub fn use_var(
    graph: &GraphCells,
    form: &mut [u32],
    work: &mut [u32],
    c: Counts,
    var: Variable,
    block: Block,
) -> (Value, Counts)
    requires { StateWith (CanRead graph.now form.old work.old c var.0 block.0) }
    ensures { (g : Graph) → (s : Form) → CanRead graph.now form.old work.old c var.0 block.0 g s
        → HasRead graph.now form.new work.new result var.0 block.0 g s }
{
    if let Some(val) = form::definition(form, var, block) {
        return (val, c);
    }
    let ty = graph.variable_type(var);
    let d = work::push_call(work, c, Call::UseVar(Branch::from(block)));
    let (val, e) = run_state_machine(graph, form, work, d, var, ty);
    (val, c.with_values(e.values))
}

// Seals the blocks by number; those that are sealed stay as they are.
pub fn seal_all_blocks(graph: &mut [u32], form: &mut [u32], work: &mut [u32], c: Counts) -> Counts
    requires { StateWith (AtRest graph.old form.old work.old c) }
    ensures { (g : Graph) → (s : Form) → AtRest graph.old form.old work.old c g s
        → AtRest graph.new form.new work.new result
        (seal_each (up_from 0 g.blocks) g s).0 (seal_each (up_from 0 g.blocks) g s).1 }
{
    let n = GraphCells { cells: graph }.block_count();
    let mut d = c;
    for b in 0..n {
        d = seal_one_block(graph, form, work, d, Block(b));
    }
    d
}

// A sealed block stays as it is. Another is marked first, so that what reads its predecessors meets it as a sealed one.
pub fn seal_one_block(
    graph: &mut [u32],
    form: &mut [u32],
    work: &mut [u32],
    c: Counts,
    block: Block,
) -> Counts
    requires { StateWith (CanSeal graph.old form.old work.old c block.0) }
    ensures { (g : Graph) → (s : Form) → CanSeal graph.old form.old work.old c block.0 g s
        → HasSealed graph.new form.new work.new result block.0 g s }
{
    let cells = GraphCells { cells: graph };
    if cells.is_sealed(block) {
        return c;
    }
    graph::mark_sealed(graph, block);
    settle_pending(&GraphCells { cells: graph }, form, work, c, block)
}

// Settles the pending variables in the order in which they came to wait, as each appends its arguments after those of the ones before it.
// Settled parameters may have left the block's list, but those of the n - k variables that are left are the last of it.
fn settle_pending(
    graph: &GraphCells,
    form: &mut [u32],
    work: &mut [u32],
    c: Counts,
    block: Block,
) -> Counts
    requires { StateWith (Marked graph.now form.old work.old c block.0) }
    ensures { (g : Graph) → (s : Form) → Marked graph.now form.old work.old c block.0 g s
        → AtRest graph.now form.new work.new result (mark_sealed g block.0) (seal_form g s block.0) }
{
    // Fixed memory, no heap: the list is taken out of the cells before they are changed.
    let mut waiting = [0u32; entity::WAIT_ROOM];
    let n = form::take_pending(form, block, &mut waiting);
    let mut d = c;
    for (k, v) in waiting[..n as usize].iter().enumerate() {
        let val = form::pending_param(form, block, n - k as u32);
        d = predecessors_lookup(graph, form, work, d, Variable(*v), val, block);
    }
    d
}

// Reads the variable in the block's predecessors, and settles its parameter: what sealing does for each pending variable.
fn predecessors_lookup(
    graph: &GraphCells,
    form: &mut [u32],
    work: &mut [u32],
    c: Counts,
    var: Variable,
    sentinel: Value,
    dest: Block,
) -> Counts
    requires { StateWith (CanFill graph.now form.old work.old c var.0 sentinel.0 dest.0) }
    ensures { (g : Graph) → (s : Form)
        → CanFill graph.now form.old work.old c var.0 sentinel.0 dest.0 g s
        → HasFilled form.new work.new c.call result var.0 sentinel.0 dest.0 g s }
{
    let ty = graph.variable_type(var);
    let d = lookup::begin_predecessors_lookup(graph, work, c, sentinel, dest);
    let (_, e) = run_state_machine(graph, form, work, d, var, ty);
    c.with_values(e.values)
}

pub fn has_any_predecessors(graph: &GraphCells, block: Block) -> bool
    requires { block.0 < limits.blocks }
    ensures { (g : Graph) → Seen graph.now g → result ≡ not (eqb (length (g.preds block.0)) 0) }
{
    graph.predecessor_count(block) != 0
}

// Runs the scheduled calls until there are none. The one result left is the answer.
fn run_state_machine(
    graph: &GraphCells,
    form: &mut [u32],
    work: &mut [u32],
    c: Counts,
    var: Variable,
    ty: u32,
) -> (Value, Counts)
    requires { RunWith (CanRun graph.now form.old work.old c var.0 ty) }
    ensures { (g : Graph) → (k : Conf) → (x : ℕ) → (s : Form)
        → CanRun graph.now form.old work.old c var.0 ty g k x s
        → Ran form.new work.new c.call result x s }
{
    let mut d = c;
    while 0 < d.calls {
        d = step(graph, form, work, d, var, ty);
    }
    let val = work::result(work, d, 1, 0);
    (val, d.pop_results(1))
}

// One turn: the call that was scheduled last is run.
fn step(
    graph: &GraphCells,
    form: &mut [u32],
    work: &mut [u32],
    c: Counts,
    var: Variable,
    ty: u32,
) -> Counts
    requires { TurnWith (λ g q ts rs s. UnderWay graph.now form.old work.old c var.0 ty g (conf (q ∷ ts) rs s)) }
    ensures { (g : Graph) → (q : Task) → (ts : List Task) → (rs : List ℕ) → (s : Form)
        → UnderWay graph.now form.old work.old c var.0 ty g (conf (q ∷ ts) rs s)
        → UnderWay graph.now form.new work.new result var.0 ty g (turn g var.0 (q ∷ ts) rs s) }
{
    let (call, d) = work::pop_call(work, c);
    match call {
        Call::UseVar(branch) => lookup::use_var_nonlocal(
            graph,
            form,
            work,
            d,
            var,
            ty,
            Block::from(branch),
        ),
        Call::FinishPredecessorsLookup(sentinel, dest) => {
            let (val, e) = settle::finish_predecessors_lookup(graph, form, work, d, sentinel, dest);
            work::push_result(work, e, val)
        }
    }
}
