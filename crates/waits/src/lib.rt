// What calls share of waits: a task starts one, and all waits of a chain end. How one wait ends is shared as laws (specs/Waiting.antt): the calls and the tick
// that end it change the record themselves.
#![tactic(auto)]

ghost use Rattle.std.specs.Prelude.{◌≡◌, cond};
ghost use Rattle.parts.specs.Chains.{wait_chain};
ghost use Rattle.model.specs.Waits.{WaitQueue};
ghost use Rattle.model.specs.declared.Code.TheVariants.{Dlt as E_DLT};
ghost use Rattle.waits.specs.Waiting.{ChainOf, OnChain, Cleared, Joinable, Joined};

use chain::EVERY_KEY;
use model::{Answer, Outcome, Wait};
use parts::{DLT, TASK_TABLE};
use record::{State, Step};

// The largest key that a newcomer of this priority goes behind: its own by priority, every key by arrival.
pub fn limit(ranked: bool, priority: u8) -> u8
    ensures { result ≡ cond ranked priority 255 }
{
    if ranked { priority } else { EVERY_KEY }
}

// A task that is able joins the chain that this wait names, and starts the wait. The answer is its place.
pub fn join(mut state: State, me: u8, ranked: bool, wait: Wait) -> Step
    requires { Joinable state (wait_chain wait) me }
    ensures { Joined state (wait_chain wait) me ranked wait result }
{
    let t = me as usize;
    let chain = parts::chain_named(wait);
    let behind = limit(ranked, state.waiting.key(t));
    let place = state.waiting.insert(TASK_TABLE, chain, me, behind);
    state.tasks[t] = parts::started(state.tasks[t], wait);
    Step {
        state,
        answer: Answer {
            outcome: Outcome::Waits(place as u32),
            a: 0,
            b: 0,
            c: 0,
        },
    }
}

// All waits of a chain end with E_DLT, from the head on. The chain's links are followed, so no range counts the turns.
pub fn end_all(state: &mut State, chain: usize)
    requires { OnChain state.old chain }
    ensures { (k : WaitQueue) → ChainOf k chain → Cleared k E_DLT state.old state.new }
{
    while state.waiting.first(TASK_TABLE, chain) != 0 {
        let t = state.waiting.pop(TASK_TABLE, chain) as usize;
        state.tasks[t] = parts::ended(state.tasks[t], DLT, 0);
    }
}
