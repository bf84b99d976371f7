// The form in lent cells: every read and every change of it. Nothing above this crate mentions its cells.
// The caller lends them, so they and the counts are parameters of each function, and no struct keeps them.
#![tactic(auto)]

ghost use Rattle.std.specs.Prelude.{◌≡◌, ℕ, suc, ◌<◌, ◌≤◌, length, get_or, take};
ghost use Rattle.entity.specs.Described.{Fits, number_of, type_room};
ghost use Rattle.entity.specs.Limits.{limits, value_room, wait_room};
ghost use Rattle.entity.specs.Options.{value_of};
ghost use Rattle.entity.specs.Types.{type_count};
ghost use Rattle.definition.specs.Base.{put, put₂, is_some, ◌∷ʳ◌, has, any, up_from, without};
ghost use Rattle.definition.specs.Form.{Graph, Form, def, with_makes, with_target, with_owns, with_args};
ghost use Rattle.definition.specs.Read.{make as made_of, set_params, wait, log_zero, place_block, record_binding};
ghost use Rattle.layout.specs.Counts.{more};
ghost use Rattle.layout.specs.Layout.{Shows};
ghost use Rattle.form.specs.Sorts.{sort_of};
ghost use Rattle.form.specs.Can.{Cells, Ex, CanMake, CanCount, HasValue, CanAppend, HasParams, HasParam, NextParam};
ghost use Rattle.form.specs.Can.{HasOwns, CanOwn, HasArgs, CanFeed};
ghost use Rattle.form.specs.Can.{HasDef, HasDefs, Recorded, CanWait, HasPending, Taken, CanLog, HasPlaced, CanPlace};

use entity::{Block, Branch, Described, Sort, Value, Variable};
use layout::{
    Counts, DESCRIBED, MADE_COUNT, OWNS, PLACED, TARGET, VALUE_COUNT, ZERO_BLOCKS, ZERO_CALLS,
    args_at, def_at, params_at, pending_at,
};

// The next value. It is its own alias target until it becomes another name.
pub fn make(form: &mut [u32], c: Counts, sort: Sort, ty: u32, block: Block) -> Counts
    requires ex { Ex (CanMake form.old c) }
    requires fits { Fits ty (number_of sort) block.0 }
    ensures { (result ≡ more c)
        × ((s : Form) → CanMake form.old c s → Shows form.new (more c) (made_of (sort_of sort) ty block.0 s)) }
{
    let n = c.values;
    let i = n as usize;
    let d = Described { ty, sort, block };
    form[DESCRIBED + i] = d.cell();
    form[TARGET + i] = n;
    form[VALUE_COUNT] = n + 1;
    c.allot()
}

// One more value that the caller made, who may make only so many.
pub fn count_made(form: &mut [u32])
    requires { Ex (CanCount form.old) }
    ensures { (s : Form) → CanCount form.old s → Cells form.new (with_makes s (suc s.makes)) }
{
    form[MADE_COUNT] += 1;
}

// How many values the caller made: the limit is on these.
pub fn made_count(form: &[u32]) -> u32
    requires { Ex (Cells form.now) }
    ensures { (s : Form) → Cells form.now s → result ≡ s.makes }
{
    form[MADE_COUNT]
}

// A zero has the type of the parameter that it stands for, and a variable takes only values of its own.
pub fn value_type(form: &[u32], val: Value) -> u32
    requires { Ex (HasValue form.now val.0) }
    ensures { (result < type_room) × ((s : Form) → HasValue form.now val.0 s → (s.info val.0).type < type_count
        → result ≡ (s.info val.0).type) }
{
    let i = val.0 as usize;
    let d = Described::from_cell(form[DESCRIBED + i]);
    d.ty
}

// How many zeros the log has: a call answers how many it added.
pub fn zero_count(form: &[u32]) -> u32
    requires { Ex (Cells form.now) }
    ensures { (s : Form) → Cells form.now s → result ≡ length s.zeros }
{
    form[ZERO_CALLS]
}

// The next value, as the block's last parameter: the builder's or the caller's, by its sort.
pub fn append_block_param(form: &mut [u32], c: Counts, block: Block, sort: Sort, ty: u32) -> Counts
    requires ex { Ex (CanAppend form.old c block.0) }
    requires ty_lt_type_room { ty < type_room }
    ensures { (result ≡ more c) × ((s : Form) → CanAppend form.old c block.0 s
        → Shows form.new (more c) (set_params block.0 (s.params block.0 ∷ʳ s.next) (made_of (sort_of sort) ty block.0 s))) }
{
    let d = make(form, c, sort, ty, block);
    rows::push(form, params_at(block), c.values);
    d
}

// The parameter leaves its block's list; the others keep their order.
pub fn remove_block_param(form: &mut [u32], block: Block, val: Value)
    requires { Ex (HasParams form.old block.0) }
    ensures { (s : Form) → HasParams form.old block.0 s
        → Cells form.new (set_params block.0 (without val.0 (s.params block.0)) s) }
{
    rows::remove(form, params_at(block), val.0);
}

// The block's parameter at a place.
pub fn block_param(form: &[u32], block: Block, place: u32) -> Value
    requires { Ex (HasParam form.now block.0 place) }
    ensures { (s : Form) → HasParam form.now block.0 place s → result.0 ≡ get_or (s.params block.0) place 0 }
{
    Value(form[params_at(block) + 1 + place as usize])
}

// How many of the block's parameters are the caller's: these stand first.
pub fn own_count(form: &[u32], block: Block) -> u32
    requires { Ex (HasOwns form.now block.0) }
    ensures { (s : Form) → HasOwns form.now block.0 s → result ≡ s.owns block.0 }
{
    form[OWNS + block.0 as usize]
}

// One more of them, of which a block may have only so many.
pub fn count_own(form: &mut [u32], block: Block)
    requires { Ex (CanOwn form.old block.0) }
    ensures { (s : Form) → CanOwn form.old block.0 s
        → Cells form.new (with_owns s (put block.0 (suc (s.owns block.0)) s.owns)) }
{
    form[OWNS + block.0 as usize] += 1;
}

// The value becomes another name.
pub fn change_to_alias(form: &mut [u32], val: Value, to: Value)
    requires { Ex (HasValue form.old val.0) }
    ensures { (s : Form) → HasValue form.old val.0 s
        → Cells form.new (with_target s (put val.0 to.0 s.target)) }
{
    form[TARGET + val.0 as usize] = to.0;
}

// What is recorded as the definition of the variable in the block.
pub fn definition(form: &[u32], var: Variable, block: Block) -> Option<Value>
    requires { Ex (HasDef form.now var.0 block.0) }
    ensures { (s : Form) → HasDef form.now var.0 block.0 s → value_of result ≡ def s var.0 block.0 }
{
    form[def_at(var, block)].checked_sub(1).map(Value)
}

// The value is the definition of the variable in the block: plus one, so that value 0 is one too.
pub fn record_def(form: &mut [u32], var: Variable, block: Block, val: Value)
    requires ex { Ex (HasDef form.old var.0 block.0) }
    requires val_bound { val.0 < value_room limits }
    ensures { Recorded form.old form.new var.0 block.0 val.0 }
{
    form[def_at(var, block)] = val.0 + 1;
}

// Has the variable a definition in one of the first blocks?
pub fn is_defined(form: &[u32], var: Variable, blocks: u32) -> bool
    requires { Ex (HasDefs form.now var.0 blocks) }
    ensures { (s : Form) → HasDefs form.now var.0 blocks s
        → result ≡ any (λ b. is_some (def s var.0 b)) (up_from 0 blocks) }
{
    (0..blocks).any(|b| definition(form, var, Block(b)).is_some())
}

// A variable receives the value: if the variable is marked, stack maps must have it.
pub fn record_stack_map_binding(form: &mut [u32], marked: bool, val: Value)
    requires { Ex (HasValue form.old val.0) }
    ensures { (g : Graph) → (v : ℕ) → marked ≡ g.marks v → (s : Form) → HasValue form.old val.0 s
        → (s.info val.0).type < type_count → Cells form.new (record_binding g v val.0 s) }
{
    if !marked {
        return;
    }
    let i = val.0 as usize;
    form[DESCRIBED + i] = Described::marked(form[DESCRIBED + i]);
}

// The variable is pending in the block. Its parameter, any x here, is not stored again: it is found by its place among the block's.
pub fn push_pending(form: &mut [u32], var: Variable, block: Block)
    requires { Ex (CanWait form.old block.0) }
    ensures { (s : Form) → CanWait form.old block.0 s → (x : ℕ)
        → Cells form.new (wait var.0 block.0 x s) }
{
    rows::push(form, pending_at(block), var.0);
}

// How many variables are pending in the block.
pub fn pending_count(form: &[u32], block: Block) -> u32
    requires { Ex (HasPending form.now block.0) }
    ensures { (result ≤ wait_room limits) × ((s : Form) → HasPending form.now block.0 s
        → result ≡ length (s.pending block.0)) }
{
    form[pending_at(block)]
}

// Moves the block's pending variables to the front of the list, and answers these: settling them may make others pend, in other blocks.
// How many they are is answered beside it: of a part that is answered in its place, nothing could be promised of the list itself.
pub fn take_pending(form: &mut [u32], block: Block, list: &mut [u32]) -> u32
    requires ex { Ex (HasPending form.old block.0) }
    requires limits_in_bounds { wait_room limits ≤ length list.old }
    ensures { (result ≤ wait_room limits)
        × ((s : Form) → HasPending form.old block.0 s → Taken form.new (take result list.new) block.0 s) }
{
    let n = pending_count(form, block);
    let k = n as usize;
    let at = pending_at(block);
    list[..k].copy_from_slice(&form[at + 1..at + 1 + k]);
    rows::clear(form, at);
    n
}

// The parameter of the pending variable that has n - 1 others behind it: settled ones may have left the list, so count from its end.
pub fn pending_param(form: &[u32], block: Block, n: u32) -> Value
    requires { (x : ℕ) × Ex (NextParam form.now block.0 n x) }
    ensures { (x : ℕ) → (s : Form) → NextParam form.now block.0 n x s → result.0 ≡ x }
{
    let at = params_at(block);
    let count = form[at];
    let k = (count - n) as usize;
    Value(form[at + 1 + k])
}

// This call added a zero in the block.
pub fn log_zero(form: &mut [u32], c: Counts, block: Block)
    requires { Ex (CanLog form.old) }
    ensures { (s : Form) → CanLog form.old s → Cells form.new (log_zero c.call block.0 s) }
{
    rows::push(form, ZERO_CALLS, c.call);
    rows::push(form, ZERO_BLOCKS, block.0);
}

// Mostly it is the last one placed, so that is tested first: many values in one block cost no search.
fn is_placed(form: &[u32], block: Block) -> bool
    requires { Ex (HasPlaced form.now) }
    ensures { (s : Form) → HasPlaced form.now s → result ≡ has block.0 s.placed }
{
    let n = form[PLACED] as usize;
    n != 0 && (form[PLACED + n] == block.0 || rows::has(form, PLACED, block.0))
}

// The block is placed after the others, unless it was.
pub fn place_block(form: &mut [u32], block: Block)
    requires { Ex (CanPlace form.old block.0) }
    ensures { (s : Form) → CanPlace form.old block.0 s → Cells form.new (place_block block.0 s) }
{
    if is_placed(form, block) {
        return;
    }
    rows::push(form, PLACED, block.0);
}

// How many arguments the branch has at one of its destinations.
pub fn argument_count(form: &[u32], branch: Branch, place: u32) -> u32
    requires { Ex (HasArgs form.now branch.0 place) }
    ensures { (s : Form) → HasArgs form.now branch.0 place s → result ≡ length (s.args branch.0 place) }
{
    form[args_at(branch, place)]
}

// The value is the next argument of the branch at one of its destinations.
pub fn append_argument(form: &mut [u32], branch: Branch, place: u32, val: Value)
    requires { Ex (CanFeed form.old branch.0 place) }
    ensures { (s : Form) → CanFeed form.old branch.0 place s
        → Cells form.new (with_args s (put₂ branch.0 place (s.args branch.0 place ∷ʳ val.0) s.args)) }
{
    rows::push(form, args_at(branch, place), val.0);
}
