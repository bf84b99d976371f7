// The session: a whole list of calls over lent cells. The lengths decide whether it is run at all; if it is, the calls are run in turn.
#![tactic(auto)]

ghost use Rattle.std.specs.Prelude.{◌≡◌};
ghost use Rattle.definition.specs.Whole.{needs, short, unfit};
ghost use Rattle.layout.specs.Outcome.{lent};
ghost use Rattle.session.specs.Answer.{code_of, refusal_code};
ghost use Rattle.session.specs.Ends.{long, Ended};

use turns::lists::Calls;

// Why a session isn't run: a lent list is shorter than its need, or the call lists don't fit together.
#[derive(Clone, Copy, Debug, PartialEq, Eq)]
pub enum Unrun {
    Short,
    Unfit,
}

impl Unrun {
    // The code by which a host in C knows it.
    pub fn code(self) -> u32
        ensures { result ≡ refusal_code self }
    {
        match self {
            Unrun::Short => 1,
            Unrun::Unfit => 2,
        }
    }
}

// Do the call lists differ in length, or are there more calls than the limit?
fn unfit(kinds: &[u32], xs: &[u32], ys: &[u32], zs: &[u32]) -> bool
    ensures { result ≡ unfit kinds.now xs.now ys.now zs.now }
{
    let n = kinds.len();
    xs.len() != n || ys.len() != n || zs.len() != n || (entity::CALLS as usize) < n
}

// Is some list shorter than n calls need?
fn short(n: usize, codes: usize, numbers: usize, graph: usize, form: usize, work: usize) -> bool
    ensures { result ≡ short (needs n) (long codes numbers graph form work) }
{
    codes < n
        || numbers < n
        || graph < entity::GRAPH_NEED
        || form < entity::FORM_NEED
        || work < entity::WORK_NEED
}

// A session: the four lists hold its calls, a kind and three numbers each. It isn't run where those lists don't fit, nor where a lent list is too short, and
// then leaves all as it was; else it leaves each call's code and number, and the tables that the calls lead to.
// C lends the nine lists one by one, and the run takes parts of them: a struct of them would be made here and taken apart at once.
pub fn session(
    kinds: &[u32],
    xs: &[u32],
    ys: &[u32],
    zs: &[u32],
    codes: &mut [u32],
    numbers: &mut [u32],
    graph: &mut [u32],
    form: &mut [u32],
    work: &mut [u32],
) -> Result<(), Unrun>
    ensures { Ended kinds.now xs.now ys.now zs.now
        (lent codes.old numbers.old graph.old form.old work.old)
        (lent codes.new numbers.new graph.new form.new work.new) (code_of result) }
{
    if unfit(kinds, xs, ys, zs) {
        return Err(Unrun::Unfit);
    }
    let n = kinds.len();
    if short(
        n,
        codes.len(),
        numbers.len(),
        graph.len(),
        form.len(),
        work.len(),
    ) {
        return Err(Unrun::Short);
    }
    turns::run(
        Calls { kinds, xs, ys, zs },
        &mut codes[..n],
        &mut numbers[..n],
        &mut graph[..entity::GRAPH_NEED],
        &mut form[..entity::FORM_NEED],
        &mut work[..entity::WORK_NEED],
    );
    Ok(())
}
