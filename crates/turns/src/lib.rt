// The calls in turn, over lists of just the needed length: each is answered, and its answer written beside those before it.
#![tactic(auto)]

ghost use Rattle.std.specs.Prelude.{◌≡◌, List, suc, ◌<◌, length, get_or};
ghost use Rattle.entity.specs.Limits.{limits};
ghost use Rattle.entity.specs.Options.{value_of};
ghost use Rattle.definition.specs.Session.{Done, State, answered, step, session};
ghost use Rattle.definition.specs.Whole.{calls};
ghost use Rattle.layout.specs.Outcome.{lent, SameLists, shown};
ghost use Rattle.calls.specs.Calls.{StateWith};
ghost use Rattle.turns.specs.Lists.{Exact};
ghost use Rattle.turns.specs.Turns.{next_call, Told, Turned, SameRoom, Written, call_at};

use calls::kind::Kind;
use entity::Value;
use layout::Counts;
use lists::{Answers, Calls};
use reply::Reply;

pub mod lists;

impl Answers<'_> {
    // What the use at place y answered; none where there is no accepted use before place i.
    fn answered(&self, kinds: &[u32], i: usize, y: u32) -> Option<Value>
        requires { (i < length kinds.now) × (length self.now.codes.now ≡ length kinds.now) }
        ensures { (ds : List Done) → Told kinds.now self.now.codes.now self.now.numbers.now ds → i ≡ length ds
            → value_of result ≡ answered ds y }
    {
        let k = y as usize;
        let kind = *kinds[..i].get(k)?;
        (kind == Kind::UseVar.number() && self.codes[k] == 0).then_some(Value(self.numbers[k]))
    }

    // The same where the call at place i is of kind 5. The others name no earlier use, so none is looked for.
    fn named_answer(&self, kinds: &[u32], i: usize, y: u32) -> Option<Value>
        requires { (i < length kinds.now) × (length self.now.codes.now ≡ length kinds.now) }
        ensures { (ds : List Done) → Told kinds.now self.now.codes.now self.now.numbers.now ds → i ≡ length ds
            → get_or kinds.now i 0 ≡ 5 → value_of result ≡ answered ds y }
    {
        if kinds[i] != Kind::DefineAnswer.number() {
            return None;
        }
        self.answered(kinds, i, y)
    }

    // The call at place i has its answer.
    fn write(&mut self, i: usize, r: Reply)
        requires { i < length self.old.codes.now }
        ensures same_room { SameRoom self.old self.new }
        ensures written { Written self.old i r self.new }
    {
        self.codes[i] = r.code;
        self.numbers[i] = r.number;
    }
}

// The next call bears the next number.
fn next_call(c: Counts) -> Counts
    requires { c.call < limits.calls }
    ensures { result ≡ next_call c }
{
    Counts {
        call: c.call + 1,
        ..c
    }
}

// One turn: the call at place i is answered, and its answer written there.
fn turn(
    asked: Calls,
    answers: &mut Answers,
    graph: &mut [u32],
    form: &mut [u32],
    work: &mut [u32],
    c: Counts,
    i: usize,
) -> Counts
    requires i_in_bounds { i < length asked.kinds.now }
    requires lined { length answers.old.codes.now ≡ length asked.kinds.now }
    requires state_with { StateWith (Turned asked answers.old graph.old form.old work.old c i) }
    ensures same_room { SameRoom answers.old answers.new }
    ensures turned { (t : State)
        → Turned asked.entry answers.old graph.old form.old work.old c i t
        → Turned asked.entry answers.new graph.new form.new work.new result (suc i) (step t (call_at asked.entry i)) }
{
    let kinds = asked.kinds;
    let y = asked.ys[i];
    let w = answers.named_answer(kinds, i, y);
    let answer = calls::one_call(
        graph,
        form,
        work,
        c,
        kinds[i],
        asked.xs[i],
        y,
        asked.zs[i],
        w,
    );
    let r = Reply::new(answer, c);
    answers.write(i, r);
    next_call(r.counts)
}

// Runs the calls in turn, from the empty session, over lists of just the needed length.
// The lists for the answers come one by one: where a struct holds the first parts of longer lists, its maker learns only how long they are after a call.
pub fn run(
    asked: Calls,
    codes: &mut [u32],
    numbers: &mut [u32],
    graph: &mut [u32],
    form: &mut [u32],
    work: &mut [u32],
)
    requires lined { (length codes.old ≡ length asked.kinds.now) × (length numbers.old ≡ length asked.kinds.now) }
    requires exact { Exact graph.old form.old work.old }
    ensures { SameLists (lent codes.new numbers.new graph.new form.new work.new)
        (shown (session (calls asked.entry.kinds.now asked.entry.xs.now asked.entry.ys.now asked.entry.zs.now))) }
{
    clear::clear(graph, form);
    let mut answers = Answers { codes, numbers };
    let mut c = Counts {
        calls: 0,
        results: 0,
        values: 0,
        call: 0,
    };
    for i in 0..asked.kinds.len() {
        c = turn(asked, &mut answers, graph, form, work, c, i);
    }
    clear::clear_work(work);
}
