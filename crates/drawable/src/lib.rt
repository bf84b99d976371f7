// Can the tables be drawn? Every count that the drawing reads is tested against its limit, and every number against its count.
#![tactic(auto)]

ghost use Rattle.std.specs.Prelude.{◌≡◌, ◌+◌, ◌<◌, ◌≤◌, length};
ghost use Rattle.entity.specs.Limits.{limits, zero_room};
ghost use Rattle.definition.specs.Base.{◌<?◌, every, up_from};
ghost use Rattle.drawable.specs.Fits.{row_fits, args_fit, branch_fits, block_fits, drawable};
ghost use Rattle.drawable.specs.Drawable.{Long};

use entity::{Block, Branch};
use layout::{args_at, dests_at, params_at};

pub mod cells;

// The tables that are drawn, each as long as it needs to be.
#[derive(Clone, Copy)]
pub struct Tables<'a> {
    pub graph: &'a [u32],
    pub form: &'a [u32],
    ghost long: { Long graph.now form.now },
}

const PARAM_ROOM: u32 = entity::PARAM_ROOM as u32;

// Is each of them below n? A loop: `all`, laid into the test of each destination, looks up anew for each number where the row lies.
fn below(xs: &[u32], n: u32) -> bool
    ensures { result ≡ every (λ x. x <? n) xs.now }
{
    for x in xs {
        if n <= *x {
            return false;
        }
    }
    true
}

// Has the row at most as many entries as its room, each below n?
fn row_fits(room: u32, n: u32, row: &[u32], at: usize) -> bool
    requires { (at + room < length row.now) × (room ≤ zero_room limits) }
    ensures { result ≡ row_fits room n row.now at }
{
    if room < row[at] {
        return false;
    }
    below(cells::entries(row, at), n)
}

impl Tables<'_> {
    // Do the arguments of the branch's destinations, so many, fit?
    fn args_fit(&self, branch: Branch, count: u32) -> bool
        requires { (count ≤ limits.dests) × (branch.0 < limits.blocks) }
        ensures { result ≡ every (args_fit self.now.form.now branch.0) (up_from 0 count) }
    {
        let values = self.form[layout::VALUE_COUNT];
        (0..count).all(|i| row_fits(PARAM_ROOM, values, self.form, args_at(branch, i)))
    }

    fn branch_fits(&self, branch: Branch) -> bool
        requires { branch.0 < limits.blocks }
        ensures { result ≡ branch_fits self.now.graph.now self.now.form.now branch.0 }
    {
        let at = dests_at(branch);
        if !row_fits(
            entity::DESTS,
            self.graph[layout::BLOCK_COUNT],
            self.graph,
            at,
        ) {
            return false;
        }
        self.args_fit(branch, self.graph[at])
    }

    fn block_fits(&self, block: Block) -> bool
        requires { block.0 < limits.blocks }
        ensures { result ≡ block_fits self.now.graph.now self.now.form.now block.0 }
    {
        let values = self.form[layout::VALUE_COUNT];
        let b = block.0 as usize;
        if !row_fits(PARAM_ROOM, values, self.form, params_at(block)) {
            return false;
        }
        if self.graph[layout::BRANCHES + b] == 0 {
            return true;
        }
        self.branch_fits(Branch::from(block))
    }

    pub fn drawable(&self) -> bool
        ensures { result ≡ drawable self.now.graph.now self.now.form.now }
    {
        let blocks = self.graph[layout::BLOCK_COUNT];
        if entity::BLOCKS < blocks {
            return false;
        }
        if entity::VALUE_ROOM < self.form[layout::VALUE_COUNT] as usize {
            return false;
        }
        (0..blocks).all(|b| self.block_fits(Block(b)))
    }
}
