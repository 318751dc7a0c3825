// The kernel's state as one record. Crate see has the test whether it is sound.
#![tactic(auto)]

ghost use Rattle.std.specs.Prelude.{◌≡◌};
ghost use Rattle.model.specs.Codes.{finished};
ghost use Rattle.model.specs.Rows.{empty_state};
ghost use Rattle.record.specs.Meaning.{abs};
ghost use Rattle.record.specs.Sound.{Sound};

use chain::Chains;
use model::{Answer, Code, Outcome, Wait};
use parts::{MAILBOX_CELLS, Mailbox, OK, QUEUE_CELLS, Queue, TASK_CELLS, Task};
use ring::Ring;

// Cell n of `tasks`, `queues`, `mailboxes` and of the keys belongs to number n, and so do the links up to the last number; behind them stand the
// heads of the chains. Cell 0 is nobody's. So a task's record is its cells in `tasks` and `waiting`, and a message's its cells in `messages`.
#[derive(Clone, Copy)]
pub struct State {
    pub counter: u32,
    pub tasks: [Task; TASK_CELLS],
    pub queues: [Queue; QUEUE_CELLS],
    // The wait queues; the keys are the tasks' priorities.
    pub waiting: Chains,
    // The messages queued in each mailbox; the keys are the priorities kept with them.
    pub messages: Chains,
    pub mailboxes: [Mailbox; MAILBOX_CELLS],
}

// What a step hands back: the changed state, together with the answer.
#[derive(Clone, Copy)]
pub struct Step {
    pub state: State,
    pub answer: Answer,
}

// A finished answer. The words that document 01 doesn't name are 0.
pub fn finished(code: Code, a: u32, b: u32, c: u32) -> Answer
    ensures { result ≡ finished code a b c }
{
    Answer {
        outcome: Outcome::Finished(code),
        a,
        b,
        c,
    }
}

impl State {
    // The state in which nothing is defined, at counter 0.
    pub fn empty() -> State
        ensures { Sound result × (abs result ≡ empty_state 0) }
    {
        let task = Task {
            wait: Wait::NoWait,
            word: 0,
            code: OK,
            defined: false,
            suspended: false,
        };
        let queue = Queue {
            ring: Ring::new(0),
            defined: 0,
            attribute: 0,
            spare: 0,
        };
        let mailbox = Mailbox {
            defined: 0,
            attribute: 0,
            highest: 0,
        };
        State {
            counter: 0,
            tasks: [task; TASK_CELLS],
            queues: [queue; QUEUE_CELLS],
            waiting: Chains::new(),
            messages: Chains::new(),
            mailboxes: [mailbox; MAILBOX_CELLS],
        }
    }
}
