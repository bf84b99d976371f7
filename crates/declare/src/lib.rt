// The kinds of call that bring something in: blocks, variables, values, definitions, branches, a caller's parameters and their arguments, a variable's mark.
// The checks of docs/RULES.md in its order, then the change.
// The tables are lent and the counts go by value, each a parameter of its own: a rule of the project, for the original's `&mut self`.
#![tactic(auto)]

ghost use Rattle.std.specs.Prelude.{not, ◌||◌, List, ◌≡◌, ℕ, ◌<◌, length};
ghost use Rattle.entity.specs.Limits.{limits};
ghost use Rattle.entity.specs.Options.{value_of};
ghost use Rattle.definition.specs.Base.{◌=?◌};
ghost use Rattle.definition.specs.Form.{Graph, Form};
ghost use Rattle.definition.specs.Session.{declare_block, declare_var, make_value, define, define_answer, new_branch, own_param, give_arg, mark_var};
ghost use Rattle.graph.specs.Seen.{Seen};
ghost use Rattle.form.specs.Can.{Ex, HasPending};
ghost use Rattle.reply.specs.Replies.{SomeState, Answers};

use entity::{Block, Branch, Sort, Value, Variable};
use graph::GraphCells;
use layout::Counts;
use reply::{Accepted, Refusal};

// Kind 1. Block 0 is the entry, so it is placed at once; a block that is there stays as it is.
pub fn declare_block(
    graph: &mut [u32],
    form: &mut [u32],
    c: Counts,
    x: u32,
) -> Result<Accepted, Refusal>
    requires { SomeState graph.old form.old c }
    ensures { Answers graph.old form.old graph.new form.new c result (λ g s. declare_block g s x) }
{
    let cells = GraphCells { cells: graph };
    if entity::BLOCKS <= x {
        return Err(Refusal::Full);
    }
    let known = cells.block_count();
    if known < x {
        return Err(Refusal::Skips);
    }
    if x < known {
        return reply::accept(x, c);
    }
    graph::declare_block(graph, Block(x));
    if x != 0 {
        return reply::accept(x, c);
    }
    form::place_block(form, Block(0));
    reply::accept(x, c)
}

// Kind 2. A variable that is there may be declared again with its own type.
pub fn declare_var(graph: &mut [u32], c: Counts, x: u32, y: u32) -> Result<Accepted, Refusal>
    requires { (form : List ℕ) × SomeState graph.old form c }
    ensures { (form : List ℕ) → Answers graph.old form graph.new form c result (λ g s. declare_var g s x y) }
{
    let cells = GraphCells { cells: graph };
    if entity::VARIABLES <= x {
        return Err(Refusal::Full);
    }
    let n = cells.variable_count();
    if n < x {
        return Err(Refusal::Skips);
    }
    let ty = reply::known_type(y)?;
    if x < n {
        if cells.variable_type(Variable(x)) != ty.0 {
            return Err(Refusal::OtherType);
        }
        return reply::accept(x, c);
    }
    graph::declare_variable(graph, ty.0);
    reply::accept(x, c)
}

// Kind 3. A block's first value places it; after its branch a block takes no more.
pub fn make_value(
    graph: &GraphCells,
    form: &mut [u32],
    c: Counts,
    x: u32,
    y: u32,
) -> Result<Accepted, Refusal>
    requires { SomeState graph.now form.old c }
    ensures { Answers graph.now form.old graph.now form.new c result (λ g s. make_value g s x y) }
{
    let block = reply::known_block(graph, x)?;
    let ty = reply::known_type(y)?;
    if graph.has_branch(block) {
        return Err(Refusal::Branched);
    }
    if entity::MADE <= form::made_count(form) {
        return Err(Refusal::Full);
    }
    form::count_made(form);
    form::place_block(form, block);
    let d = form::make(form, c, Sort::Made, ty.0, block);
    reply::accept(c.values, d)
}

// Kind 4. The value is stored as it is, an alias too. Uses beyond a branch that was declared have read the block's definitions, so it takes no more.
pub fn define(
    graph: &GraphCells,
    form: &mut [u32],
    c: Counts,
    x: u32,
    y: u32,
    z: u32,
) -> Result<Accepted, Refusal>
    requires { SomeState graph.now form.old c }
    ensures { Answers graph.now form.old graph.now form.new c result (λ g s. define g s x y z) }
{
    let var = reply::known_var(graph, x)?;
    let val = reply::known_value(c, y)?;
    let block = reply::known_block(graph, z)?;
    if form::value_type(form, val) != graph.variable_type(var) {
        return Err(Refusal::OtherType);
    }
    if graph.ever_declared(Branch::from(block)) {
        return Err(Refusal::Late);
    }
    form::record_def(form, var, block, val);
    form::record_stack_map_binding(form, graph.is_marked(var), val);
    reply::accept(y, c)
}

// Kind 5. The value comes from an earlier call: w is that use's answer, and none where the call was no accepted use.
pub fn define_answer(
    graph: &GraphCells,
    form: &mut [u32],
    c: Counts,
    x: u32,
    z: u32,
    w: Option<Value>,
) -> Result<Accepted, Refusal>
    requires { SomeState graph.now form.old c }
    ensures { Answers graph.now form.old graph.now form.new c result
        (λ g s. define_answer g s x z (value_of w)) }
{
    let val = w.ok_or(Refusal::Absent)?;
    define(graph, form, c, x, val.0, z)
}

// Kind 7. A branch places its block, which may have no value.
pub fn new_branch(
    graph: &mut [u32],
    form: &mut [u32],
    c: Counts,
    x: u32,
) -> Result<Accepted, Refusal>
    requires { SomeState graph.old form.old c }
    ensures { Answers graph.old form.old graph.new form.new c result (λ g s. new_branch g s x) }
{
    let cells = GraphCells { cells: graph };
    let block = reply::known_block(&cells, x)?;
    if cells.has_branch(block) {
        return Err(Refusal::Branched);
    }
    graph::declare_branch(graph, block);
    form::place_block(form, block);
    reply::accept(x, c)
}

// Has the builder begun with the block? It is sealed, has a predecessor, or a variable waits there: from then on the builder may give it parameters.
fn is_begun(graph: &GraphCells, form: &[u32], block: Block) -> bool
    requires ex { Ex (HasPending form.now block.0) }
    requires block_lt_blocks { block.0 < limits.blocks }
    ensures { (g : Graph) → (s : Form) → Seen graph.now g → HasPending form.now block.0 s
        → result ≡ (g.sealed block.0 || not (length (g.preds block.0) =? 0) || not (length (s.pending block.0) =? 0)) }
{
    graph.is_sealed(block)
        || graph.predecessor_count(block) != 0
        || form::pending_count(form, block) != 0
}

// Kind 15. A caller's parameters stand before the builder's. Such a parameter counts as a made value, but it does not place its block.
pub fn own_param(
    graph: &GraphCells,
    form: &mut [u32],
    c: Counts,
    x: u32,
    y: u32,
) -> Result<Accepted, Refusal>
    requires { SomeState graph.now form.old c }
    ensures { Answers graph.now form.old graph.now form.new c result (λ g s. own_param g s x y) }
{
    let block = reply::known_block(graph, x)?;
    let ty = reply::known_type(y)?;
    if is_begun(graph, form, block) {
        return Err(Refusal::Begun);
    }
    if entity::OWN_PARAMS <= form::own_count(form, block) {
        return Err(Refusal::OwnFull);
    }
    if entity::MADE <= form::made_count(form) {
        return Err(Refusal::Full);
    }
    form::count_made(form);
    let d = form::append_block_param(form, c, block, Sort::Caller, ty.0);
    form::count_own(form, block);
    reply::accept(c.values, d)
}

// Kind 16. The caller's arguments feed the caller's parameters of the destination in order, and stand before the builder's: these come once the branch is
// declared. The value is stored as it is.
pub fn give_arg(
    graph: &GraphCells,
    form: &mut [u32],
    c: Counts,
    x: u32,
    y: u32,
    z: u32,
) -> Result<Accepted, Refusal>
    requires { SomeState graph.now form.old c }
    ensures { Answers graph.now form.old graph.now form.new c result (λ g s. give_arg g s x y z) }
{
    let branch = reply::known_branch(graph, x)?;
    let val = reply::known_value(c, y)?;
    if graph.dest_count(branch) <= z {
        return Err(Refusal::Absent);
    }
    if graph.is_declared(branch) {
        return Err(Refusal::Declared);
    }
    let dest = graph.dest(branch, z);
    let n = form::argument_count(form, branch, z);
    if form::own_count(form, dest) <= n {
        return Err(Refusal::OwnFull);
    }
    let param = form::block_param(form, dest, n);
    if form::value_type(form, val) != form::value_type(form, param) {
        return Err(Refusal::OtherType);
    }
    form::append_argument(form, branch, z, val);
    reply::accept(n, c)
}

// Kind 17. Stack maps must have what the variable receives. It is marked before it has any definition, so that none is missed.
pub fn mark_var_needs_stack_map(
    graph: &mut [u32],
    form: &[u32],
    c: Counts,
    x: u32,
) -> Result<Accepted, Refusal>
    requires { SomeState graph.old form.now c }
    ensures { Answers graph.old form.now graph.new form.now c result (λ g s. mark_var g s x) }
{
    let cells = GraphCells { cells: graph };
    let var = reply::known_var(&cells, x)?;
    let n = cells.block_count();
    if form::is_defined(form, var, n) {
        return Err(Refusal::Defined);
    }
    graph::mark_variable(graph, var);
    reply::accept(x, c)
}
