// What a call sees of a record that is sound: what the rows that the call names show to the error table and to the choice of what the call does. A number
// that isn't valid shows nothing.
#![tactic(auto)]

ghost use Rattle.std.specs.Prelude.{◌≡◌, eqb, replicate};
ghost use Rattle.lists.specs.Tests.{Whether};
ghost use Rattle.chain.specs.Table.{key_cells, Room};
ghost use Rattle.errors.specs.Seen.{ShowsQueue, ShowsMailbox, SeenFor};
ghost use Rattle.model.specs.Rows.{task, suspension, queue, mailbox, message};
ghost use Rattle.model.specs.Calls.{row_if_valid};
ghost use Rattle.record.specs.Meaning.{abs};
ghost use Rattle.record.specs.Sound.{Sound};
ghost use Rattle.see.specs.Shown.{TaskShown, ChainsTested, ObjectsTestable, ObjectsSound, SeenWhere};

use chain::KEY_CELLS;
use errors::{MailboxSeen, QueueSeen, Seen, TaskSeen};
use model::{Call, Code, MAILBOX_LIMIT, QUEUE_LIMIT, TASK_LIMIT, Wait};
use parts::{MESSAGE_TABLE, MESSAGES, QUEUE_CELLS, RECEIVERS, TASK_CELLS, TASK_TABLE, WAITERS};
use record::State;

// Of a task that isn't defined, the stored pair isn't shown.
fn see_task(state: &State, number: u8) -> TaskSeen
    requires { Sound state.now }
    ensures { TaskShown (row_if_valid (abs state.now).rows (task number)) (row_if_valid (abs state.now).rows (suspension number)) result }
{
    let nothing = TaskSeen {
        defined: false,
        suspended: false,
        wait: Wait::NoWait,
        code: Code::Ok,
        word: 0,
    };
    if !names::within(1, TASK_LIMIT as u32, number as u32) {
        return nothing;
    }
    let task = state.tasks[number as usize];
    let suspended = task.suspended;
    let wait = task.wait;
    if !task.defined {
        return TaskSeen {
            suspended,
            wait,
            ..nothing
        };
    }
    TaskSeen {
        defined: true,
        suspended,
        wait,
        code: parts::read_code(task.code),
        word: task.word,
    }
}

fn see_queue(state: &State, number: u8) -> QueueSeen
    requires { Sound state.now }
    ensures { ShowsQueue (row_if_valid (abs state.now).rows (queue number)) result }
{
    if !names::within(1, QUEUE_LIMIT as u32, number as u32) {
        return QueueSeen {
            defined: false,
            attribute: 0,
            capacity: 0,
            count: 0,
            sender: 0,
            receiver: 0,
        };
    }
    let q = number as usize;
    let sender = state.waiting.first(TASK_TABLE, q);
    let receiver = state.waiting.first(TASK_TABLE, RECEIVERS + q);
    let queue = state.queues[q];
    let ring = queue.ring;
    let defined = queue.defined == 1;
    let (attribute, capacity) = if defined {
        (queue.attribute, ring.capacity())
    } else {
        (0, 0)
    };
    QueueSeen {
        defined,
        attribute,
        capacity,
        count: ring.length(),
        sender,
        receiver,
    }
}

fn see_mailbox(state: &State, number: u8) -> MailboxSeen
    requires { Sound state.now }
    ensures { ShowsMailbox (row_if_valid (abs state.now).rows (mailbox number)) result }
{
    if !names::within(1, MAILBOX_LIMIT as u32, number as u32) {
        return MailboxSeen {
            defined: false,
            attribute: 0,
            highest: 0,
            waiter: 0,
            message: 0,
        };
    }
    let b = number as usize;
    let waiter = state.waiting.first(TASK_TABLE, WAITERS + b);
    let message = state.messages.first(MESSAGE_TABLE, b);
    let mailbox = state.mailboxes[b];
    let defined = mailbox.defined == 1;
    let attribute = if defined { mailbox.attribute } else { 0 };
    let ranked = parts::ranks_messages(attribute);
    MailboxSeen {
        defined,
        attribute,
        highest: if ranked { mailbox.highest } else { 0 },
        waiter,
        message,
    }
}

// Whether a message is queued in no mailbox.
fn see_message(state: &State, number: u32) -> bool
    requires { Sound state.now }
    ensures { result ≡ eqb (row_if_valid (abs state.now).rows (message number)).queued_in 0 }
{
    if !names::within(1, MESSAGES as u32, number) {
        return true;
    }
    state.messages.chain_of(MESSAGE_TABLE, number as u8) == 0
}

// What a call sees of a record that is known to be sound.
pub fn view(state: &State, call: Call) -> Seen
    requires { Sound state.now }
    ensures { SeenFor (abs state.now) call result }
{
    Seen {
        counter: state.counter,
        caller: see_task(state, call.caller),
        task: see_task(state, names::task_named(call)),
        queue: see_queue(state, names::queue_named(call)),
        mailbox: see_mailbox(state, names::mailbox_named(call)),
        message_free: see_message(state, names::message_named(call)),
    }
}

// Whether both tables are sound. `standing`, lent with zeros, then has for each task the chain that it stands in.
fn chains_sound(state: &State, standing: &mut [u8; KEY_CELLS]) -> bool
    requires { Room 32 48 state.now.waiting.link × Room 64 16 state.now.messages.link × (standing.old ≡ replicate key_cells 0) }
    ensures { ChainsTested state.now.waiting.link state.now.messages.link standing.new result }
{
    if !chain_test::sound(&state.waiting, TASK_TABLE, standing) {
        return false;
    }
    let mut queued = [0u8; KEY_CELLS];
    chain_test::sound(&state.messages, MESSAGE_TABLE, &mut queued)
}

// Whether the data queue and the mailbox of this number are sound. Both tables are.
fn objects_sound(state: &State, number: usize) -> bool
    requires { ObjectsTestable state.now number }
    ensures { Whether (ObjectsSound state.now number) result }
{
    let waiting = &state.waiting;
    if !object_test::queue_sound(state.queues[number], waiting, number) {
        return false;
    }
    object_test::mailbox_sound(state.mailboxes[number], waiting, &state.messages, number)
}

// What a call sees of whatever record: nothing where it isn't sound. The test stands here: as a function of its own, with `see` above it and `view`, it
// made a call through `enter` a quarter longer, by the count of instructions.
pub fn see(state: &State, call: Call) -> Option<Seen>
    ensures { SeenWhere state.now call result }
{
    // The proof needs the arrays' sizes before the first loop, and has them once the record is read.
    let _nobody = state.tasks[0];
    let mut standing = [0u8; KEY_CELLS];
    if !chains_sound(state, &mut standing) {
        return None;
    }
    for t in 1..TASK_CELLS {
        let priority = state.waiting.key(t);
        if !task_test::task_sound(state.tasks[t], priority, standing[t], state.counter) {
            return None;
        }
    }
    for n in 1..QUEUE_CELLS {
        if !objects_sound(state, n) {
            return None;
        }
    }
    Some(view(state, call))
}

// Whether the record is sound, by itself: whether any call sees anything of it; here look, by caller 0, of task 0.
pub fn sound(state: &State) -> bool
    ensures { Whether (Sound state.now) result }
{
    let look = Call {
        number: 22,
        caller: 0,
        locked: false,
        disabled: false,
        object: 0,
        value: 0,
        tmout: 0,
        attribute: 0,
    };
    see(state, look).is_some()
}
