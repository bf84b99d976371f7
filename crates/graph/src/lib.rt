// The graph in lent cells: blocks, variables' types, branches with their destinations, predecessors, marks of what is sealed or was declared, and of the
// variables that stack maps must have.
// Every read and every change of those cells is here, so that what is above speaks of the definition's graph alone.
// What reads the lent cells is a method of `GraphCells`, whose type says that they show a graph. What changes them takes the lent list, and asks for it:
// of a `&mut` in a struct each contract would have to say that it is still the same one, and between two changes the graph need not be sound.
#![tactic(auto)]

ghost use Rattle.std.specs.Prelude.{◌≡◌, true, suc, ◌<◌, ◌≤◌, length, get_or};
ghost use Rattle.entity.specs.Limits.{limits, pred_room};
ghost use Rattle.entity.specs.Options.{block_of};
ghost use Rattle.definition.specs.Base.{put, has, position, ◌∷ʳ◌};
ghost use Rattle.definition.specs.Form.{Graph, with_blocks, with_types, with_branch, with_dests, with_preds, with_declared, with_marks};
ghost use Rattle.definition.specs.Read.{type_of, single};
ghost use Rattle.definition.specs.Session.{swap_out, declared_anywhere, mark_sealed};
ghost use Rattle.graph.specs.Seen.{GraphWith, Shown, Seen};
ghost use Rattle.graph.specs.Seen.{CanDeclareVariable, CanDeclareDest, CanDeclarePredecessor, CanRemovePredecessor};

use entity::{Block, Branch, Variable};
use layout::{BLOCK_COUNT, BRANCHES, DECLARED, MARKS, SEALED, TYPES, dests_at, preds_at};
use std::marker::Model;

// Lent cells that show a graph. A contract sees the list of them. Whoever builds it shows that they do, so its field is open to all.
#[derive(Drop)]
pub struct GraphCells<'a> {
    pub cells: &'a [u32],
}

impl<'a> Model for GraphCells<'a> {
    ghost use Rattle.std.specs.Prelude.{ℕ, List};
    ghost use Rattle.graph.specs.Seen.{GraphWith, Seen};

    ghost Value = { List ℕ };

    ghost view = { λ g. g.cells.now };

    ghost invariant = { λ g. GraphWith (Seen g.cells.now) };
}

impl<'a> GraphCells<'a> {
    pub fn block_count(&self) -> u32
        ensures upper_bound { result ≤ limits.blocks }
        ensures value { (g : Graph) → Seen self.now g → result ≡ g.blocks }
    {
        self.cells[BLOCK_COUNT]
    }

    pub fn variable_count(&self) -> u32
        ensures upper_bound { result ≤ limits.variables }
        ensures value { (g : Graph) → Seen self.now g → result ≡ length g.types }
    {
        self.cells[TYPES]
    }

    pub fn variable_type(&self, var: Variable) -> u32
        requires { var.0 < limits.variables }
        ensures { (g : Graph) → Seen self.now g → result ≡ type_of g var.0 }
    {
        self.cells[TYPES + 1 + var.0 as usize]
    }

    // A flag is one cell of its table, read and stored in one expression: a function for all four tables would take the table's start, and its contract
    // would be longer than that expression.
    pub fn has_branch(&self, block: Block) -> bool
        requires { block.0 < limits.blocks }
        ensures { (g : Graph) → Seen self.now g → result ≡ g.branch block.0 }
    {
        self.cells[BRANCHES + block.0 as usize] != 0
    }

    pub fn is_sealed(&self, block: Block) -> bool
        requires { block.0 < limits.blocks }
        ensures { (g : Graph) → Seen self.now g → result ≡ g.sealed block.0 }
    {
        self.cells[SEALED + block.0 as usize] != 0
    }

    // Was the branch ever declared to a block? Also where it was removed again; `is_declared` says whether it is so now.
    pub fn ever_declared(&self, branch: Branch) -> bool
        requires { branch.0 < limits.blocks }
        ensures { (g : Graph) → Seen self.now g → result ≡ g.declared branch.0 }
    {
        self.cells[DECLARED + branch.0 as usize] != 0
    }

    // Must stack maps have what the variable receives?
    pub fn is_marked(&self, var: Variable) -> bool
        requires { var.0 < limits.variables }
        ensures { (g : Graph) → Seen self.now g → result ≡ g.marks var.0 }
    {
        self.cells[MARKS + var.0 as usize] != 0
    }

    pub fn dest_count(&self, branch: Branch) -> u32
        requires { branch.0 < limits.blocks }
        ensures upper_bound { result ≤ limits.dests }
        ensures value { (g : Graph) → Seen self.now g → result ≡ length (g.dests branch.0) }
    {
        self.cells[dests_at(branch)]
    }

    pub fn predecessor_count(&self, block: Block) -> u32
        requires { block.0 < limits.blocks }
        ensures upper_bound { result ≤ pred_room limits }
        ensures value { (g : Graph) → Seen self.now g → result ≡ length (g.preds block.0) }
    {
        self.cells[preds_at(block)]
    }

    // The destination at a place.
    pub fn dest(&self, branch: Branch, place: u32) -> Block
        requires branch_lt_blocks { branch.0 < limits.blocks }
        requires place_lt_dests { place < limits.dests }
        ensures result_lt_blocks { result.0 < limits.blocks }
        ensures result_value { (g : Graph) → Seen self.now g → result.0 ≡ get_or (g.dests branch.0) place 0 }
    {
        Block(self.cells[dests_at(branch) + 1 + place as usize])
    }

    // The predecessor at a place.
    pub fn predecessor(&self, block: Block, place: u32) -> Branch
        requires block_lt_blocks { block.0 < limits.blocks }
        requires place_bound { place < pred_room limits }
        ensures result_lt_blocks { result.0 < limits.blocks }
        ensures result_value { (g : Graph) → Seen self.now g → result.0 ≡ get_or (g.preds block.0) place 0 }
    {
        Branch(self.cells[preds_at(block) + 1 + place as usize])
    }

    // Does the branch name the block?
    pub fn names(&self, branch: Branch, block: Block) -> bool
        requires { branch.0 < limits.blocks }
        ensures { (g : Graph) → Seen self.now g → result ≡ has block.0 (g.dests branch.0) }
    {
        rows::has(self.cells, dests_at(branch), block.0)
    }

    // Is the branch declared to the block?
    pub fn is_predecessor(&self, block: Block, branch: Branch) -> bool
        requires { block.0 < limits.blocks }
        ensures { (g : Graph) → Seen self.now g → result ≡ has branch.0 (g.preds block.0) }
    {
        rows::has(self.cells, preds_at(block), branch.0)
    }

    // Is the branch declared anywhere? Only a block that it names can have it.
    pub fn is_declared(&self, branch: Branch) -> bool
        requires { branch.0 < limits.blocks }
        ensures { (g : Graph) → Seen self.now g → result ≡ declared_anywhere g branch.0 }
    {
        let n = self.dest_count(branch);
        (0..n).any(|i| self.is_predecessor(self.dest(branch, i), branch))
    }

    // The block whose branch is the only one to a sealed block.
    pub fn single_predecessor(&self, block: Block) -> Option<Block>
        requires { block.0 < limits.blocks }
        ensures { (g : Graph) → Seen self.now g → block_of result ≡ single g block.0 }
    {
        if !self.is_sealed(block) || self.predecessor_count(block) != 1 {
            return None;
        }
        Some(self.predecessor(block, 0).into())
    }
}

// The next block is there.
pub fn declare_block(graph: &mut [u32], block: Block)
    requires graph_with { GraphWith (Seen graph.old) }
    requires block_lt_blocks { block.0 < limits.blocks }
    ensures { (g : Graph) → Seen graph.old g → Shown graph.new (with_blocks g (suc block.0)) }
{
    graph[BLOCK_COUNT] = block.0 + 1;
}

// The next variable is there.
pub fn declare_variable(graph: &mut [u32], ty: u32)
    requires { GraphWith (CanDeclareVariable graph.old) }
    ensures { (g : Graph) → CanDeclareVariable graph.old g → Shown graph.new (with_types g (g.types ∷ʳ ty)) }
{
    rows::push(graph, TYPES, ty);
}

pub fn mark_variable(graph: &mut [u32], var: Variable)
    requires graph_with { GraphWith (Seen graph.old) }
    requires var_lt_variables { var.0 < limits.variables }
    ensures { (g : Graph) → Seen graph.old g → Shown graph.new (with_marks g (put var.0 true g.marks)) }
{
    graph[MARKS + var.0 as usize] = 1;
}

pub fn declare_branch(graph: &mut [u32], block: Block)
    requires graph_with { GraphWith (Seen graph.old) }
    requires block_lt_blocks { block.0 < limits.blocks }
    ensures { (g : Graph) → Seen graph.old g → Shown graph.new (with_branch g (put block.0 true g.branch)) }
{
    graph[BRANCHES + block.0 as usize] = 1;
}

pub fn declare_dest(graph: &mut [u32], branch: Branch, block: Block)
    requires graph_with { GraphWith (CanDeclareDest graph.old branch.0) }
    requires branch_lt_blocks { branch.0 < limits.blocks }
    ensures { (g : Graph) → CanDeclareDest graph.old branch.0 g
        → Shown graph.new (with_dests g (put branch.0 (g.dests branch.0 ∷ʳ block.0) g.dests)) }
{
    rows::push(graph, dests_at(branch), block.0);
}

// The branch comes last among the block's predecessors, and is marked for good as declared.
pub fn declare_block_predecessor(graph: &mut [u32], block: Block, branch: Branch)
    requires graph_with { GraphWith (CanDeclarePredecessor graph.old block.0 branch.0) }
    requires block_lt_blocks { block.0 < limits.blocks }
    requires branch_lt_blocks { branch.0 < limits.blocks }
    ensures { (g : Graph) → CanDeclarePredecessor graph.old block.0 branch.0 g
        → Shown graph.new (with_declared (with_preds g (put block.0 (g.preds block.0 ∷ʳ branch.0) g.preds))
        (put branch.0 true g.declared)) }
{
    rows::push(graph, preds_at(block), branch.0);
    graph[DECLARED + branch.0 as usize] = 1;
}

// The last predecessor moves into the place of the one that leaves, which is answered.
pub fn remove_block_predecessor(graph: &mut [u32], block: Block, branch: Branch) -> u32
    requires graph_with { GraphWith (CanRemovePredecessor graph.old block.0 branch.0) }
    requires block_lt_blocks { block.0 < limits.blocks }
    ensures { (g : Graph) → CanRemovePredecessor graph.old block.0 branch.0 g
        → (result ≡ position 0 branch.0 (g.preds block.0))
        × Shown graph.new (with_preds g (put block.0 (swap_out branch.0 (g.preds block.0)) g.preds)) }
{
    let at = preds_at(block);
    let place = rows::find(graph, at, branch.0).unwrap();
    rows::swap_remove(graph, at, place);
    place
}

pub fn mark_sealed(graph: &mut [u32], block: Block)
    requires graph_with { GraphWith (Seen graph.old) }
    requires block_lt_blocks { block.0 < limits.blocks }
    ensures { (g : Graph) → Seen graph.old g → Shown graph.new (mark_sealed g block.0) }
{
    graph[SEALED + block.0 as usize] = 1;
}
