// Document 01, "Mailboxes": the changes that calls 12 to 17 make. Which of them a call makes, and whether it makes one, is decided before; each asks of the
// record what that decision found (specs/Premises.antt). A task that waits for a message joins by waits::join. Chain b of the table of queued messages is
// mailbox b's, and chain WAITERS + b of the table of waiting tasks has those that wait at it.
#![tactic(auto)]

ghost use Rattle.std.specs.Prelude.{◌≡◌};
ghost use Rattle.model.specs.Mailboxes.{create, delete, deliver_message, queue_message, take_message};
ghost use Rattle.record.specs.Step.{Does};
ghost use Rattle.mailboxes.specs.Premises.{mailbox_in, Creatable, OnMailbox, Deliverable, Queueable, Takeable};

use model::Code;
use parts::{MESSAGE_TABLE, Mailbox, OK, TASK_TABLE, WAITERS};
use record::{State, Step};

// A new mailbox, where nobody waits and no message is queued.
pub fn create(mut state: State, mailbox: u8, attribute: u8, highest: u8) -> Step
    requires { Creatable state mailbox attribute highest }
    ensures { Does (create mailbox attribute highest) state result }
{
    let i = mailbox as usize;
    state.mailboxes[i] = Mailbox {
        defined: 1,
        attribute,
        highest,
    };
    let answer = record::finished(Code::Ok, 0, 0, 0);
    Step { state, answer }
}

// The waits end first, from the head on, then the messages are freed; then the mailbox is undefined.
pub fn delete(mut state: State, mailbox: u8) -> Step
    requires { OnMailbox state mailbox }
    ensures { Does (delete mailbox (mailbox_in state mailbox)) state result }
{
    let i = mailbox as usize;
    waits::end_all(&mut state, WAITERS + i);
    state.messages.clear(MESSAGE_TABLE, i);
    state.mailboxes[i] = Mailbox {
        defined: 0,
        attribute: 0,
        highest: 0,
    };
    let answer = record::finished(Code::Ok, 0, 0, 0);
    Step { state, answer }
}

// The head waiter gets the message, which stays free.
pub fn deliver_message(mut state: State, mailbox: u8, message: u32) -> Step
    requires { Deliverable state mailbox }
    ensures { Does (deliver_message mailbox (mailbox_in state mailbox) message) state result }
{
    let waiters = WAITERS + mailbox as usize;
    let t = state.waiting.pop(TASK_TABLE, waiters) as usize;
    state.tasks[t] = parts::ended(state.tasks[t], OK, message);
    let answer = record::finished(Code::Ok, 0, 0, 0);
    Step { state, answer }
}

// The message is queued, behind all or by its priority. The answer has its place.
pub fn queue_message(mut state: State, mailbox: u8, message: u8, priority: u32) -> Step
    requires { Queueable state mailbox message priority }
    ensures { Does (queue_message mailbox (mailbox_in state mailbox) message priority) state result }
{
    let i = mailbox as usize;
    let row = state.mailboxes[i];
    let ranked = parts::ranks_messages(row.attribute);
    // A message's priority is kept only where messages go by it, and there it is 16 at most. Elsewhere a call may name any number, and 0 is kept.
    let rank = if ranked { priority as u8 } else { 0 };
    let behind = waits::limit(ranked, rank);
    state.messages.set_key(message as usize, rank);
    let place = state.messages.insert(MESSAGE_TABLE, i, message, behind);
    let answer = record::finished(Code::Ok, place as u32, 0, 0);
    Step { state, answer }
}

// The head message leaves its mailbox, and is the answer.
pub fn take_message(mut state: State, mailbox: u8) -> Step
    requires { Takeable state mailbox }
    ensures { Does (take_message mailbox (mailbox_in state mailbox)) state result }
{
    let i = mailbox as usize;
    let message = state.messages.pop(MESSAGE_TABLE, i);
    let answer = record::finished(Code::Ok, message as u32, 0, 0);
    Step { state, answer }
}
