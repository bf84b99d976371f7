// The kinds of call that connect blocks, or ask about that: destinations, predecessors. The checks of docs/RULES.md in its order, then the change.
// The tables are lent and the counts go by value, each a parameter of its own: a rule of the project, for the original's `&mut self`.
#![tactic(auto)]

ghost use Rattle.std.specs.Prelude.{◌≡◌, ◌<◌, List, ℕ, IfOk};
ghost use Rattle.entity.specs.Limits.{limits};
ghost use Rattle.definition.specs.Form.{Graph, Form};
ghost use Rattle.definition.specs.Session.{Reply as Defined, new_dest, add_pred, drop_pred, any_preds, is_sealed};
ghost use Rattle.graph.specs.Seen.{Seen};
ghost use Rattle.reply.specs.Replies.{SomeState, Answers};
ghost use Rattle.connect.specs.Checks.{checked, pred_checked};

use entity::{Block, Branch};
use graph::GraphCells;
use layout::Counts;
use reply::{Accepted, Refusal};

// Kind 8. A branch that is declared somewhere keeps its destinations: its arguments stand at their places.
pub fn new_dest(graph: &mut [u32], c: Counts, x: u32, y: u32) -> Result<Accepted, Refusal>
    requires { (form : List ℕ) × SomeState graph.old form c }
    ensures { (form : List ℕ) → Answers graph.old form graph.new form c result (λ g s. new_dest g s x y) }
{
    let cells = GraphCells { cells: graph };
    let branch = reply::known_branch(&cells, x)?;
    let block = reply::known_block(&cells, y)?;
    let declared = cells.is_declared(branch);
    let n = cells.dest_count(branch);
    if declared {
        return Err(Refusal::Declared);
    }
    if entity::DESTS <= n {
        return Err(Refusal::DestsFull);
    }
    graph::declare_dest(graph, branch, block);
    reply::accept(n, c)
}

// What declaring a predecessor and removing it ask first: the block and the branch are there, and the block is not sealed.
fn check_pred(graph: &GraphCells, x: u32, y: u32) -> Result<(Block, Branch), Refusal>
    ensures block { IfOk result (λ p. (p.0.0 ≡ x) × (p.0.0 < limits.blocks)) }
    ensures branch { IfOk result (λ p. (p.1.0 ≡ y) × (p.1.0 < limits.blocks)) }
    ensures d_value { (g : Graph) → (s : Form) → Seen graph.now g → (d : Defined) → checked result d ≡ pred_checked g s x y d }
{
    let block = reply::known_block(graph, x)?;
    let branch = reply::known_branch(graph, y)?;
    if graph.is_sealed(block) {
        return Err(Refusal::Sealed);
    }
    Ok((block, branch))
}

// Kind 9. A branch that names a block several times is one predecessor of it, so it is declared there once.
pub fn add_pred(graph: &mut [u32], c: Counts, x: u32, y: u32) -> Result<Accepted, Refusal>
    requires { (form : List ℕ) × SomeState graph.old form c }
    ensures { (form : List ℕ) → Answers graph.old form graph.new form c result (λ g s. add_pred g s x y) }
{
    let cells = GraphCells { cells: graph };
    let (block, branch) = check_pred(&cells, x, y)?;
    if !cells.names(branch, block) {
        return Err(Refusal::Unrelated);
    }
    if cells.is_predecessor(block, branch) {
        return Err(Refusal::DeclaredHere);
    }
    let n = cells.predecessor_count(block);
    graph::declare_block_predecessor(graph, block, branch);
    reply::accept(n + 1, c)
}

// Kind 10. The answer is the place that the last predecessor takes over.
pub fn drop_pred(graph: &mut [u32], c: Counts, x: u32, y: u32) -> Result<Accepted, Refusal>
    requires { (form : List ℕ) × SomeState graph.old form c }
    ensures { (form : List ℕ) → Answers graph.old form graph.new form c result (λ g s. drop_pred g s x y) }
{
    let cells = GraphCells { cells: graph };
    let (block, branch) = check_pred(&cells, x, y)?;
    if !cells.is_predecessor(block, branch) {
        return Err(Refusal::Unrelated);
    }
    let place = graph::remove_block_predecessor(graph, block, branch);
    reply::accept(place, c)
}

// Kind 13. An unknown block is refused, where the original says no.
pub fn has_any_predecessors(graph: &GraphCells, c: Counts, x: u32) -> Result<Accepted, Refusal>
    requires { (form : List ℕ) × SomeState graph.now form c }
    ensures { (form : List ℕ) → Answers graph.now form graph.now form c result (λ g s. any_preds g s x) }
{
    let block = reply::known_block(graph, x)?;
    reply::accept(u32::from(graph.predecessor_count(block) != 0), c)
}

// Kind 14. An unknown block is refused, where the original says no.
pub fn is_sealed(graph: &GraphCells, c: Counts, x: u32) -> Result<Accepted, Refusal>
    requires { (form : List ℕ) × SomeState graph.now form c }
    ensures { (form : List ℕ) → Answers graph.now form graph.now form c result (λ g s. is_sealed g s x) }
{
    let block = reply::known_block(graph, x)?;
    reply::accept(u32::from(graph.is_sealed(block)), c)
}
