// The rows that are drawn: the entries of a row, and which row it is.
ghost use Rattle.std.specs.Prelude.{◌≡◌, ◌<◌, ◌≤◌, get_or};
ghost use Rattle.entity.specs.Limits.{limits, param_room};
ghost use Rattle.layout.specs.Rows.{Readable, entries};
ghost use Rattle.drawable.specs.Fits.{dests_at, params_at, args_at};
ghost use Rattle.drawable.specs.Drawable.{Listed};

use crate::Tables;
use entity::{Block, Branch};
use layout::{args_at, dests_at, params_at};

// The entries of the row whose count is at this cell.
pub fn entries<'a>(cells: &'a [u32], at: usize) -> &'a [u32]
    requires { Readable cells.now at }
    ensures { result.now ≡ entries cells.now at }
{
    let start = at + 1;
    &cells[start..start + cells[at] as usize]
}

impl<'a> Tables<'a> {
    pub fn params(&self, block: Block) -> &'a [u32]
        requires block_lt_blocks { block.0 < limits.blocks }
        requires block_bound { get_or self.now.form.now (params_at block.0) 0 ≤ param_room limits }
        ensures { Listed self.now.form.now (params_at block.0) result.now }
    {
        entries(self.form, params_at(block))
    }

    pub fn dests(&self, branch: Branch) -> &'a [u32]
        requires branch_lt_blocks { branch.0 < limits.blocks }
        requires branch_bound { get_or self.now.graph.now (dests_at branch.0) 0 ≤ limits.dests }
        ensures { Listed self.now.graph.now (dests_at branch.0) result.now }
    {
        entries(self.graph, dests_at(branch))
    }

    pub fn args(&self, branch: Branch, place: u32) -> &'a [u32]
        requires branch_lt_blocks { (branch.0 < limits.blocks) × (place < limits.dests) }
        requires place_bound { get_or self.now.form.now (args_at branch.0 place) 0 ≤ param_room limits }
        ensures { Listed self.now.form.now (args_at branch.0 place) result.now }
    {
        entries(self.form, args_at(branch, place))
    }
}
