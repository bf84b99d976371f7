// The two stacks of the lookup machine in lent cells: scheduled calls, and results. Nothing above this crate mentions their cells.
#![tactic(auto)]

ghost use Rattle.std.specs.Prelude.{◌≡◌, List, ◌∷◌, ℕ, ◌<◌, get_or};
ghost use Rattle.meaning.specs.Machine.{Task};
ghost use Rattle.layout.specs.Counts.{one_call, call_less, one_result, task, SmallCall};
ghost use Rattle.layout.specs.Layout.{Stacks};
ghost use Rattle.work.specs.Work.{Some, CanCall, CanPop, CanAnswer, CanTake, lasts};

use entity::{Block, Branch, Value};
use layout::{CALL_BLOCKS, CALL_VALUES, Call, Counts, RESULTS};

// Two cells hold a call: a value of 0 marks a read, any other is the parameter to settle, plus one.
pub fn push_call(work: &mut [u32], c: Counts, call: Call) -> Counts
    requires some { Some (CanCall work.old c) }
    requires small_call { SmallCall call }
    ensures { (result ≡ one_call c)
        × ((ts : List Task) → (rs : List ℕ) → CanCall work.old c ts rs
        → Stacks work.new (one_call c) (task call ∷ ts) rs) }
{
    let h = c.calls;
    match call {
        Call::UseVar(branch) => {
            work[CALL_VALUES + h] = 0;
            work[CALL_BLOCKS + h] = branch.0;
            c.push_call()
        }
        Call::FinishPredecessorsLookup(val, block) => {
            work[CALL_VALUES + h] = val.0 + 1;
            work[CALL_BLOCKS + h] = block.0;
            c.push_call()
        }
    }
}

// The call that was scheduled last, and the counts without it. Its cells are left as they are: what is above the top is not read, and a session clears both
// stacks at its end.
pub fn pop_call(work: &[u32], c: Counts) -> (Call, Counts)
    requires { (q : Task) × Some (CanPop work.now c q) }
    ensures { (result.1 ≡ call_less c)
        × ((q : Task) → (ts : List Task) → (rs : List ℕ) → CanPop work.now c q ts rs
        → ((task result.0 ≡ q) × Stacks work.now (call_less c) ts rs)) }
{
    let h = c.calls - 1;
    let v = work[CALL_VALUES + h];
    let b = work[CALL_BLOCKS + h];
    let d = c.pop_call();
    if v == 0 {
        return (Call::UseVar(Branch(b)), d);
    }
    (Call::FinishPredecessorsLookup(Value(v - 1), Block(b)), d)
}

// A read's answer waits here until its block is settled.
pub fn push_result(work: &mut [u32], c: Counts, val: Value) -> Counts
    requires { Some (CanAnswer work.old c) }
    ensures { (result ≡ one_result c)
        × ((ts : List Task) → (rs : List ℕ) → CanAnswer work.old c ts rs
        → Stacks work.new (one_result c) ts (val.0 ∷ rs)) }
{
    let h = c.results;
    work[RESULTS + h] = val.0;
    c.push_result()
}

// Of the last n results, the one that k others of them are older than.
pub fn result(work: &[u32], c: Counts, n: u32, k: u32) -> Value
    requires some { Some (CanTake work.now c n) }
    requires k_lt_n { k < n }
    ensures { (ts : List Task) → (rs : List ℕ) → CanTake work.now c n ts rs → result.0 ≡ get_or (lasts n rs) k 0 }
{
    let i = c.results - n as usize + k as usize;
    Value(work[RESULTS + i])
}
