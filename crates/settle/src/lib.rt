// Settling a parameter by the results of its block's predecessors: a zero, another name of the one value that they agree on, or arguments.
// The three tables are lent and the counts go by value, each a parameter of its own: a rule of the project, for the original's `&mut self`.
#![tactic(auto)]

ghost use Rattle.std.specs.Prelude.{◌≡◌, List, map, ℕ, ◌<◌, length};
ghost use Rattle.entity.specs.Limits.{limits, value_room};
ghost use Rattle.entity.specs.Types.{step_of};
ghost use Rattle.definition.specs.Base.{without};
ghost use Rattle.definition.specs.Form.{Graph, Form, with_args};
ghost use Rattle.definition.specs.Read.{resolve, feed, feed_all, emit_step, alias as alias_of};
ghost use Rattle.meaning.specs.Machine.{Task};
ghost use Rattle.layout.specs.Counts.{with_values};
ghost use Rattle.layout.specs.Layout.{Shows};
ghost use Rattle.form.specs.Can.{Cells, Ex};
ghost use Rattle.work.specs.Work.{lasts};
ghost use Rattle.settle.specs.Settle.{SomeWith, BothWith, AllWith, CanResolve, CanAgree, judge, CanFeedBranch, CanFeedAll};
ghost use Rattle.settle.specs.Settle.{CanEmit, CanZero, Zeroed, CanAlias, CanSettle, Settled};

use entity::{Block, Branch, Sort, Type, Value};
use graph::GraphCells;
use layout::{Counts, TARGET};

// What the predecessors' results say: nothing but the sentinel, one value, or more.
#[derive(Clone, Copy, Debug, PartialEq, Eq)]
pub enum Agreement {
    Nothing,
    One(Value),
    Many,
}

// The value that this one is a name of, itself for none. Every chain of names ends, so there is nothing to test but that.
fn resolve_aliases(form: &[u32], c: Counts, val: Value) -> Value
    requires { Ex (CanResolve form.now c val.0) }
    ensures result_bound { result.0 < value_room limits }
    ensures result_value { (s : Form) → CanResolve form.now c val.0 s → result.0 ≡ resolve s val.0 }
{
    let end = TARGET + c.values as usize;
    alias::follow(&form[TARGET..end], val)
}

// What the last n results say, resolved. The sentinel says nothing; the second value that differs decides.
fn agree(form: &[u32], work: &[u32], c: Counts, n: u32, sentinel: Value) -> Agreement
    requires { SomeWith (CanAgree form.now work.now c n) }
    ensures { (s : Form) → (ts : List Task) → (rs : List ℕ) → CanAgree form.now work.now c n s ts rs
        → result ≡ judge (without sentinel.0 (map (resolve s) (lasts n rs))) }
{
    let mut verdict = Agreement::Nothing;
    for i in 0..n {
        let r = work::result(work, c, n, i);
        let y = resolve_aliases(form, c, r);
        if y == sentinel {
            continue;
        }
        match verdict {
            Agreement::Nothing => verdict = Agreement::One(y),
            Agreement::One(val) if val == y => {}
            _ => return Agreement::Many,
        }
    }
    verdict
}

// The value becomes the next argument at each destination of the branch that is the block.
fn append_argument(graph: &GraphCells, form: &mut [u32], branch: Branch, dest: Block, val: Value)
    requires { BothWith (CanFeedBranch graph.now form.old branch.0 dest.0) }
    ensures { (g : Graph) → (s : Form) → CanFeedBranch graph.now form.old branch.0 dest.0 g s
        → Cells form.new (with_args s (feed branch.0 dest.0 val.0 (g.dests branch.0) s.args)) }
{
    let n = graph.dest_count(branch);
    let mut i: u32 = 0;
    while i < n {
        let d = graph.dest(branch, i);
        if d.0 != dest.0 {
            i += 1;
            continue;
        }
        form::append_argument(form, branch, i, val);
        i += 1;
    }
}

// Each predecessor's result, unresolved, becomes an argument of its branch.
fn append_arguments(graph: &GraphCells, form: &mut [u32], work: &[u32], c: Counts, dest: Block)
    requires { AllWith (CanFeedAll graph.now form.old work.now c dest.0) }
    ensures { (g : Graph) → (s : Form) → (ts : List Task) → (rs : List ℕ)
        → CanFeedAll graph.now form.old work.now c dest.0 g s ts rs
        → Cells form.new (with_args s (feed_all g dest.0 (g.preds dest.0) (lasts (length (g.preds dest.0)) rs) s.args)) }
{
    let n = graph.predecessor_count(dest);
    for i in 0..n {
        let p = graph.predecessor(dest, i);
        let r = work::result(work, c, n, i);
        append_argument(graph, form, p, dest, r);
    }
}

// Where a zero of this type takes two steps, the first of them.
fn emit_step(form: &mut [u32], c: Counts, ty: u32, dest: Block) -> Counts
    requires { Ex (CanEmit form.old c dest.0) }
    ensures { (result ≡ with_values result.values c)
        × ((s : Form) → CanEmit form.old c dest.0 s → Shows form.new result (emit_step (step_of ty) dest.0 s)) }
{
    match Type(ty).step() {
        Some(first) => form::make(form, c, Sort::Zero, first.0, dest),
        None => c,
    }
}

// A zero of the sentinel's type in the block, which is placed and logged for it: once, however many steps it takes.
fn emit_zero(form: &mut [u32], c: Counts, sentinel: Value, dest: Block) -> (Value, Counts)
    requires { Ex (CanZero form.old c sentinel.0 dest.0) }
    ensures { (s : Form) → CanZero form.old c sentinel.0 dest.0 s
        → Zeroed form.new c result sentinel.0 dest.0 s }
{
    let ty = form::value_type(form, sentinel);
    form::place_block(form, dest);
    form::log_zero(form, c, dest);
    let d = emit_step(form, c, ty, dest);
    let zero = Value(d.values);
    let more = form::make(form, d, Sort::Zero, ty, dest);
    (zero, more)
}

// The parameter leaves its block and becomes another name of the value. What records it or has taken it keeps it.
fn replace_param(form: &mut [u32], block: Block, param: Value, val: Value)
    requires { Ex (CanAlias form.old param.0 block.0) }
    ensures { (s : Form) → CanAlias form.old param.0 block.0 s
        → Cells form.new (alias_of block.0 param.0 val.0 s) }
{
    form::remove_block_param(form, block, param);
    form::change_to_alias(form, param, val);
}

// Settles the sentinel by the results of the block's predecessors, which leave the stack.
// Where they agree the sentinel is not needed: it becomes another name of that value, or of a zero where nothing else reaches the block.
pub fn finish_predecessors_lookup(
    graph: &GraphCells,
    form: &mut [u32],
    work: &[u32],
    c: Counts,
    sentinel: Value,
    dest: Block,
) -> (Value, Counts)
    requires { AllWith (CanSettle graph.now form.old work.now c sentinel.0 dest.0) }
    ensures { (g : Graph) → (s : Form) → (ts : List Task) → (rs : List ℕ)
        → CanSettle graph.now form.old work.now c sentinel.0 dest.0 g s ts rs
        → Settled form.new work.now c.call result sentinel.0 dest.0 g s ts rs }
{
    let n = graph.predecessor_count(dest);
    match agree(form, work, c, n, sentinel) {
        Agreement::Nothing => {
            let (zero, d) = emit_zero(form, c, sentinel, dest);
            replace_param(form, dest, sentinel, zero);
            (zero, d.pop_results(n))
        }
        Agreement::One(val) => {
            replace_param(form, dest, sentinel, val);
            (val, c.pop_results(n))
        }
        Agreement::Many => {
            append_arguments(graph, form, work, c, dest);
            (sentinel, c.pop_results(n))
        }
    }
}
