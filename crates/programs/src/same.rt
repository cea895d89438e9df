// Whether two replies and two states are equal.
ghost use Rattle.std.specs.Prelude.{◌≡◌, ◌↔◌, true};
ghost use Rattle.runners.specs.Numbers.{row_outcome};
ghost use Rattle.runners.specs.Calls.{view};

use runners::{Refusal, State};

// Two replies are equal if the paper's numbers of them are. Two wrong tests that this rules out: one that compares the numbers only, and one
// that takes any two refusals for equal.
pub fn same_reply(a: Result<(), Refusal>, b: Result<(), Refusal>) -> bool
    ensures { (result ≡ true) ↔ (row_outcome a ≡ row_outcome b) }
{
    a == b
}

// Entries past a state's counts are not compared. Two wrong tests that this rules out: one that forgets the degrees, and one that takes a
// progress of 0 for idle.
pub fn same_state(a: &State, b: &State) -> bool
    ensures { (result ≡ true) ↔ (view a.now ≡ view b.now) }
{
    (a.markings(), a.transfers(), a.degrees()) == (b.markings(), b.transfers(), b.degrees())
}
