// The kernel: any record with any call or tick, to the end. A call is judged, which changes nothing, and then its decision is applied: see, decide, apply.
#![tactic(auto)]

ghost use Rattle.record.specs.Sound.{Sound};
ghost use Rattle.record.specs.Step.{Stepped};
ghost use Rattle.kernel.specs.Steps.{Judged, Appliable, Applied};

use decide::Decision;
use model::{CALL_LIMIT, Call, Code};
use record::{State, Step};

// The steps are methods, `Kernel::step` and `Kernel::advance` in the documents, and a method must stand in the crate of its type.
#[derive(Clone, Copy)]
pub struct Kernel {
    pub state: State,
}

// What a call, or with number 0 the tick, comes to on whatever record. By value, as the step has it: lent to `judge`, the record stands on the stack of a
// host's call once more (2,352 bytes).
pub fn judge(state: State, call: Call) -> Decision
    ensures { Judged state call result }
{
    if CALL_LIMIT < call.number {
        return Decision::Refuse(Code::Par);
    }
    let Some(seen) = see::see(&state, call) else {
        return Decision::Refuse(Code::Sys);
    };
    decide::decide(call, seen)
}

// The same for a record that is known to be sound: it isn't tested again.
pub fn judge_sound(state: State, call: Call) -> Decision
    requires { Sound state }
    ensures { Judged state call result }
{
    let seen = see::view(&state, call);
    decide::decide(call, seen)
}

// What a decision does to the record: each case is one function by value. A decision that changes nothing hands back the very record.
pub fn apply(state: State, decision: Decision) -> Step
    requires { Appliable state decision }
    ensures { Applied state decision result }
{
    match decision {
        Decision::Refuse(code) => Step {
            state,
            answer: record::finished(code, 0, 0, 0),
        },
        Decision::Say { code, a, b, c } => Step {
            state,
            answer: record::finished(code, a, b, c),
        },
        Decision::Tick => tasks::tick(state),
        Decision::DefineTask { task, priority } => tasks::define(state, task, priority),
        Decision::EndWait(task) => tasks::end_wait(state, task),
        Decision::Suspend { task, suspended } => tasks::suspend(state, task, suspended),
        Decision::CreateQueue(queue, attribute, capacity) => {
            data_queues::create(state, queue, attribute, capacity)
        }
        Decision::DeleteQueue(queue) => data_queues::delete(state, queue),
        Decision::Deliver { queue, word, .. } => data_queues::deliver(state, queue, word),
        Decision::Store { queue, word } => data_queues::store(state, queue, word),
        Decision::Replace { queue, word } => data_queues::replace_oldest(state, queue, word),
        Decision::TakeOldest(queue) => data_queues::take_oldest(state, queue),
        Decision::TakeAndRefill { queue, .. } => data_queues::take_oldest_and_refill(state, queue),
        Decision::TakeFromSender { queue, .. } => data_queues::take_from_sender(state, queue),
        Decision::CreateMailbox(mailbox, attribute, highest) => {
            mailboxes::create(state, mailbox, attribute, highest)
        }
        Decision::DeleteMailbox(mailbox) => mailboxes::delete(state, mailbox),
        Decision::DeliverMessage {
            mailbox,
            message,
            ..
        } => mailboxes::deliver_message(state, mailbox, message),
        Decision::QueueMessage {
            mailbox,
            message,
            priority,
        } => mailboxes::queue_message(state, mailbox, message, priority),
        Decision::TakeMessage(mailbox) => mailboxes::take_message(state, mailbox),
        Decision::Join { me, ranked, wait } => waits::join(state, me, ranked, wait),
    }
}

impl Kernel {
    // One call, or with number 0 the tick, on whatever record.
    pub fn step(self, call: Call) -> Step
        ensures { Stepped self.state call result }
    {
        let decision = judge(self.state, call);
        apply(self.state, decision)
    }

    // The same behind the test, for a record that is known to be sound.
    pub fn advance(self, call: Call) -> Step
        requires { Sound self.state }
        ensures { Stepped self.state call result }
    {
        let decision = judge_sound(self.state, call);
        apply(self.state, decision)
    }
}
