// The thin entry (document 01, "The kernel part we mean"): the host lends its one state record, which is changed where it stands.
#![tactic(auto)]

ghost use Rattle.entry.specs.Entered.{Entered};

use kernel::Kernel;
use model::{Answer, Call};
use record::State;

// One call, or with number 0 the tick, on whatever record is lent.
pub fn enter(state: &mut State, call: Call) -> Answer
    ensures { Entered state.old call state.new result }
{
    let stepped = Kernel { state: *state }.step(call);
    *state = stepped.state;
    stepped.answer
}
