// Clearing: a session starts empty, whatever the lent cells held, and leaves its stacks empty.
#![tactic(auto)]

ghost use Rattle.std.specs.Prelude.{◌++◌, ◌≡◌, ◌≤◌, length, drop};
ghost use Rattle.entity.specs.Limits.{limits, work_need};
ghost use Rattle.layout.specs.Layout.{render_work};
ghost use Rattle.clear.specs.Cleared.{blanked, Long, Cleared};

// The first n cells become 0. The others are left alone.
#[tactic(auto, unfolding(crate::specs::Cleared::blanked))]
fn blank(t: &mut [u32], n: usize)
    requires { n ≤ length t.old }
    ensures { t.new ≡ blanked n t.old }
{
    t[..n].fill(0);
}

// The needed cells of the graph and the form show the empty session; the cells past the need keep what they held.
pub fn clear(graph: &mut [u32], form: &mut [u32])
    requires { Long graph.old form.old }
    ensures { Cleared graph.old form.old graph.new form.new }
{
    blank(graph, entity::GRAPH_NEED);
    blank(form, entity::FORM_NEED);
}

// The needed cells of the stacks become 0. What lookups left in them is cleared once, at the end: a pop leaves its cells as they are.
pub fn clear_work(work: &mut [u32])
    requires { work_need limits ≤ length work.old }
    ensures { work.new ≡ render_work ++ drop (work_need limits) work.old }
{
    blank(work, entity::WORK_NEED);
}
