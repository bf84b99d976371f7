// Which lent cell holds what: where each table starts, and the counts that travel beside the cells. The laws are in proofs/.
#![tactic(auto)]

ghost use Rattle.std.specs.Prelude.{◌≡◌, ◌<◌, ◌≤◌};
ghost use Rattle.entity.specs.Limits.{limits, value_room, call_room, result_room};
ghost use Rattle.layout.specs.Counts.{more, with_values, one_call, call_less, one_result, results_less};
ghost use Rattle.layout.specs.Layout.{graph_sizes, form_sizes, work_sizes};
ghost use Rattle.layout.specs.Offsets.{starts};
ghost use Rattle.layout.specs.Starts.{dests_at, preds_at, params_at, pending_at, def_at, args_at};

use entity::{Block, Branch, Value, Variable};

// Where each table of the graph starts.
pub const BLOCK_COUNT: usize = 0;

pub const TYPES: usize = BLOCK_COUNT + 1;

pub const BRANCHES: usize = TYPES + entity::TYPE_ROW;

pub const SEALED: usize = BRANCHES + entity::BLOCKS as usize;

pub const DECLARED: usize = SEALED + entity::BLOCKS as usize;

pub const MARKS: usize = DECLARED + entity::BLOCKS as usize;

pub const DESTS: usize = MARKS + entity::VARIABLES as usize;

pub const PREDS: usize = DESTS + entity::BLOCKS as usize * entity::DEST_ROW;

// Where each table of the form starts.
pub const VALUE_COUNT: usize = 0;

pub const MADE_COUNT: usize = VALUE_COUNT + 1;

pub const TARGET: usize = MADE_COUNT + 1;

pub const DESCRIBED: usize = TARGET + entity::VALUE_ROOM;

pub const PLACED: usize = DESCRIBED + entity::VALUE_ROOM;

pub const ZERO_CALLS: usize = PLACED + entity::PRED_ROW;

pub const ZERO_BLOCKS: usize = ZERO_CALLS + entity::ZERO_ROW;

pub const PARAMS: usize = ZERO_BLOCKS + entity::ZERO_ROW;

pub const OWNS: usize = PARAMS + entity::BLOCKS as usize * entity::PARAM_ROW;

pub const PENDING: usize = OWNS + entity::BLOCKS as usize;

pub const DEFS: usize = PENDING + entity::BLOCKS as usize * entity::WAIT_ROW;

pub const ARGS: usize = DEFS + (entity::VARIABLES * entity::BLOCKS) as usize;

// Where each table of the work stacks starts.
pub const CALL_VALUES: usize = 0;

pub const CALL_BLOCKS: usize = CALL_VALUES + entity::CALL_ROOM;

pub const RESULTS: usize = CALL_BLOCKS + entity::CALL_ROOM;

// The starts for a host, and last the need. Their contracts hold each constant above to the sizes that the specs work out.
pub fn graph_starts() -> [usize; 9]
    ensures { result ≡ starts graph_sizes }
{
    [
        BLOCK_COUNT,
        TYPES,
        BRANCHES,
        SEALED,
        DECLARED,
        MARKS,
        DESTS,
        PREDS,
        entity::GRAPH_NEED,
    ]
}

pub fn form_starts() -> [usize; 13]
    ensures { result ≡ starts form_sizes }
{
    [
        VALUE_COUNT,
        MADE_COUNT,
        TARGET,
        DESCRIBED,
        PLACED,
        ZERO_CALLS,
        ZERO_BLOCKS,
        PARAMS,
        OWNS,
        PENDING,
        DEFS,
        ARGS,
        entity::FORM_NEED,
    ]
}

pub fn work_starts() -> [usize; 4]
    ensures { result ≡ starts work_sizes }
{
    [CALL_VALUES, CALL_BLOCKS, RESULTS, entity::WORK_NEED]
}

// Where a row starts: at the cell of its count, which its entries follow. Each is one line of its table's two constants, which one function for all would
// leave to its callers.
pub fn dests_at(branch: Branch) -> usize
    ensures { result ≡ dests_at branch.0 }
{
    DESTS + branch.0 as usize * entity::DEST_ROW
}

pub fn preds_at(block: Block) -> usize
    ensures { result ≡ preds_at block.0 }
{
    PREDS + block.0 as usize * entity::PRED_ROW
}

pub fn params_at(block: Block) -> usize
    ensures { result ≡ params_at block.0 }
{
    PARAMS + block.0 as usize * entity::PARAM_ROW
}

pub fn pending_at(block: Block) -> usize
    ensures { result ≡ pending_at block.0 }
{
    PENDING + block.0 as usize * entity::WAIT_ROW
}

// The arguments of a branch at one of its destinations.
pub fn args_at(branch: Branch, place: u32) -> usize
    ensures { result ≡ args_at branch.0 place }
{
    ARGS + (branch.0 as usize * entity::DESTS as usize + place as usize) * entity::PARAM_ROW
}

// The cell of the variable's definition in the block.
pub fn def_at(var: Variable, block: Block) -> usize
    ensures { result ≡ def_at var.0 block.0 }
{
    DEFS + (var.0 as usize * entity::BLOCKS as usize + block.0 as usize)
}

// A scheduled call of the lookup machine: read at a branch's block, or settle the parameter of a block by its predecessors' results.
#[derive(Clone, Copy)]
pub enum Call {
    UseVar(Branch),
    FinishPredecessorsLookup(Value, Block),
}

// The heights of the two work stacks, how many values there are, and the number of this call. They travel by value beside the cells.
// Heights are as wide as a register, so that a push doesn't have to take a pair of them apart.
#[derive(Clone, Copy)]
pub struct Counts {
    pub calls: usize,
    pub results: usize,
    pub values: u32,
    pub call: u32,
}

impl Counts {
    // One value more: the caller knows that a variable causes at most one parameter and one zero per block.
    pub fn allot(mut self) -> Counts
        requires { self.values < value_room limits }
        ensures { result ≡ more self }
    {
        self.values = self.values + 1;
        self
    }

    // A run of the lookup machine leaves the stacks as it found them, so what it hands back is the count of values.
    pub fn with_values(mut self, n: u32) -> Counts
        ensures { result ≡ with_values n self }
    {
        self.values = n;
        self
    }

    pub fn push_call(mut self) -> Counts
        requires { self.calls < call_room limits }
        ensures { result ≡ one_call self }
    {
        self.calls = self.calls + 1;
        self
    }

    pub fn pop_call(mut self) -> Counts
        requires { 0 < self.calls }
        ensures { result ≡ call_less self }
    {
        self.calls = self.calls - 1;
        self
    }

    pub fn push_result(mut self) -> Counts
        requires { self.results < result_room limits }
        ensures { result ≡ one_result self }
    {
        self.results = self.results + 1;
        self
    }

    // The results of a block's predecessors leave at once.
    pub fn pop_results(mut self, n: u32) -> Counts
        requires { n ≤ self.results }
        ensures { result ≡ results_less n self }
    {
        self.results = self.results - n as usize;
        self
    }
}
