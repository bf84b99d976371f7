// Resolving an alias over a lent list of targets.
#![tactic(auto)]

ghost use Rattle.std.specs.Prelude.{ℕ, ◌≡◌};
ghost use Rattle.alias.specs.Answer.{code_of, number_of, refusal_code};
ghost use Rattle.definition.specs.Resolve.{Ends, Resolved};

use entity::Value;

// Why a value has no end: its number is past the list, or the walk from it leaves the list or never ends.
#[derive(Clone, Copy, Debug, PartialEq, Eq)]
pub enum Unresolved {
    Absent,
    Endless,
}

impl Unresolved {
    // The code by which a host in C knows it.
    pub fn code(self) -> u32
        ensures { result ≡ refusal_code self }
    {
        match self {
            Unresolved::Absent => 6,
            Unresolved::Endless => 14,
        }
    }
}

// Follows targets from `value` until a value that is its own target. It takes a turn for each link, however long the list is, and one to see the end.
// A walk that ends never comes to a value twice, so one that has taken as many turns as the list has cells doesn't end.
pub fn resolve(targets: &[u32], value: Value) -> Result<Value, Unresolved>
    ensures { Resolved targets.now value.0 (code_of result) (number_of result) }
{
    let mut at = value.0;
    if targets.len() <= at as usize {
        return Err(Unresolved::Absent);
    }
    for steps in 0..targets.len() {
        let next = targets[at as usize];
        if next == at {
            return Ok(Value(at));
        }
        if targets.len() <= next as usize {
            break;
        }
        at = next;
    }
    Err(Unresolved::Endless)
}

// The end of a walk that is known to end: a load and a test for each link, and one of each to see the end.
// The walk goes from place to place, not from number to number: each load then waits for the one before it and for no widening between.
pub fn follow(targets: &[u32], value: Value) -> Value
    requires { (y : ℕ) × Ends targets.now value.0 y }
    ensures { Ends targets.now value.0 result.0 }
{
    let mut at = value.0 as usize;
    loop {
        let target = targets[at];
        let place = target as usize;
        if place == at {
            return Value(target);
        }
        at = place;
    }
}
