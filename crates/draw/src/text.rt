// The text of a picture, line by line.
ghost use Rattle.std.specs.Prelude.{◌≡◌, true, ℕ, ◌+◌, ◌*◌, ◌<◌, ◌≤◌, ◌^◌, length, get_or};
ghost use Rattle.entity.specs.Limits.{limits, param_room};
ghost use Rattle.definition.specs.Base.{up_from};
ghost use Rattle.lines.specs.Text.{each, block_line, edge_line, edge_lines, text};
ghost use Rattle.layout.specs.Rows.{entries};
ghost use Rattle.drawable.specs.Fits.{params_at, args_at, blocks, branches};
ghost use Rattle.draw.specs.Seen.{seen};
ghost use Rattle.lines.specs.Wrote.{Wrote, Writes, line_most};
ghost use Rattle.drawable.specs.Drawable.{BranchFits, Drawable};

use drawable::Tables;
use entity::{Block, Branch};
use lines::pen::Pen;

fn put_blocks(pen: &mut Pen, tables: &Tables)
    requires at_bound { pen.old.at < 2 ^ 57 }
    requires drawable { Drawable tables.now.graph.now tables.now.form.now }
    ensures wrote { Writes pen.old
        (each (λ b. block_line b (entries tables.now.form.now (params_at b))) (up_from 0 (blocks tables.now.graph.now))) pen.new }
    ensures upper_bound { pen.new.at ≤ pen.old.at + limits.blocks * line_most }
{
    let blocks = tables.graph[layout::BLOCK_COUNT];
    for b in 0..blocks {
        pen.put_block(Block(b), tables.params(Block(b)));
    }
}

// The branch's destinations, in their order.
fn put_dests(pen: &mut Pen, tables: &Tables, branch: Branch, dests: &[u32])
    requires at_bound { (pen.old.at < 2 ^ 57) × (branch.0 < limits.blocks) × (length dests.now ≤ limits.dests) }
    requires by_index { (i : ℕ) → i < length dests.now → get_or tables.now.form.now (args_at branch.0 i) 0 ≤ param_room limits }
    ensures wrote { Writes pen.old
        (each (λ i. edge_line branch.0 (get_or dests.now i 0) (entries tables.now.form.now (args_at branch.0 i)))
        (up_from 0 (length dests.now))) pen.new }
    ensures upper_bound { pen.new.at ≤ pen.old.at + limits.dests * line_most }
{
    for (i, dest) in dests.iter().enumerate() {
        let args = tables.args(branch, i as u32);
        pen.put_edge(branch, Block(*dest), args);
    }
}

fn put_branch(pen: &mut Pen, tables: &Tables, branch: Branch)
    requires at_bound { (pen.old.at < 2 ^ 57) × (branch.0 < limits.blocks) }
    requires branch_fits { branches tables.now.graph.now branch.0 ≡ true → BranchFits tables.now.graph.now tables.now.form.now branch.0 }
    ensures wrote { Writes pen.old (edge_lines (seen tables.now.graph.now tables.now.form.now) branch.0) pen.new }
    ensures upper_bound { pen.new.at ≤ pen.old.at + limits.dests * line_most }
{
    let b = branch.0 as usize;
    if tables.graph[layout::BRANCHES + b] == 0 {
        return;
    }
    put_dests(pen, tables, branch, tables.dests(branch));
}

fn put_branches(pen: &mut Pen, tables: &Tables)
    requires at_bound { pen.old.at < 2 ^ 56 }
    requires drawable { Drawable tables.now.graph.now tables.now.form.now }
    ensures wrote { Writes pen.old
        (each (edge_lines (seen tables.now.graph.now tables.now.form.now)) (up_from 0 (blocks tables.now.graph.now))) pen.new }
    ensures upper_bound { pen.new.at ≤ pen.old.at + limits.blocks * (limits.dests * line_most) }
{
    for p in 0..tables.graph[layout::BLOCK_COUNT] {
        put_branch(pen, tables, Branch(p));
    }
}

// From the buffer's start on.
pub fn put_text(out: &mut [u8], tables: &Tables) -> usize
    requires { Drawable tables.now.graph.now tables.now.form.now }
    ensures { Wrote out.old 0 (text (seen tables.now.graph.now tables.now.form.now)) out.new result }
{
    let mut pen = Pen::new(out);
    pen.put(b"digraph f {\n");
    put_blocks(&mut pen, tables);
    put_branches(&mut pen, tables);
    pen.put(b"}\n");
    pen.at
}
