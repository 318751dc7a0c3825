// What a call comes to: refused with a code, or one of some twenty changes of the state. A pure function of the call and of what is seen of the rows that it
// names; no state is at hand. specs/Decisions.antt says what each decision stands for.
#![tactic(auto)]

ghost use Rattle.std.specs.Prelude.{◌≡◌, ◌%◌, ◌≤◌, not, T, if◌then◌else◌};
ghost use Rattle.model.specs.Rows.{Model};
ghost use Rattle.model.specs.Calls as calls;
ghost use Rattle.model.specs.Waits as waits;
ghost use Rattle.model.specs.declared.Code.TheVariants.{Ok as E_OK};
ghost use Rattle.model.specs.declared.End.TheVariants.{Never};
ghost use Rattle.errors.specs.Seen.{SeenFor};
ghost use Rattle.decide.specs.Decisions.{after, Taken, Decided};
ghost use Rattle.decide.specs.declared.Decision.TheVariants.{Say};
ghost use Rattle.decide.specs.Touches.{Touches, changed_by};

use errors::{Seen, TaskSeen};
use model::{Answer, Call, Code, End, Outcome, Wait};

// The numbers in a decision are valid, and its case says what holds of the rows (specs: `Ready`). `task` is the task that stands at the head.
#[derive(Clone, Copy)]
pub enum Decision {
    // Refused: the very state, no words.
    Refuse(Code),
    // The state stays; the answer is finished with these.
    Say {
        code: Code,
        a: u32,
        b: u32,
        c: u32,
    },
    Tick,
    // Tasks.
    DefineTask {
        task: u8,
        priority: u8,
    },
    EndWait(u8),
    Suspend {
        task: u8,
        suspended: bool,
    },
    // Data queues.
    // Its number, attribute and capacity.
    CreateQueue(u8, u8, u8),
    DeleteQueue(u8),
    Deliver {
        queue: u8,
        task: u8,
        word: u32,
    },
    Store {
        queue: u8,
        word: u32,
    },
    Replace {
        queue: u8,
        word: u32,
    },
    TakeOldest(u8),
    TakeAndRefill {
        queue: u8,
        task: u8,
    },
    TakeFromSender {
        queue: u8,
        task: u8,
    },
    // Mailboxes.
    // Its number, attribute and highest message priority.
    CreateMailbox(u8, u8, u8),
    DeleteMailbox(u8),
    DeliverMessage {
        mailbox: u8,
        task: u8,
        message: u32,
    },
    QueueMessage {
        mailbox: u8,
        message: u8,
        priority: u32,
    },
    TakeMessage(u8),
    // The caller starts this wait, in its place by task priority or behind all.
    Join {
        me: u8,
        ranked: bool,
        wait: Wait,
    },
}

// ── What the fields say ──

// Of a field that the error table lets pass, which is small: the number itself.
// No cast of x alone: that x is small is said of the rows seen, in the clauses of those who call this, and no requires says it.
fn low_byte(x: u32) -> u8
    ensures { result ≡ x % 256 }
{
    (x % 256) as u8
}

// The end of a wait that starts now: in tick tmout + 1 from here, modulo the counter's span (document 02, item 1). A tmout of -1 sets none.
// The sign is tested and the number cast: a match on u32::try_from(tmout) has the same two cases and is no shorter.
fn end_of(counter: u32, tmout: i32) -> End
    ensures { result ≡ waits.end_of counter tmout }
{
    if tmout < 0 {
        return End::Never;
    }
    End::At(counter.wrapping_add(tmout as u32 + 1))
}

// Of the calls that may wait, those without a tmout wait for ever.
fn end_for(call: Call, seen: Seen) -> End
    ensures { result ≡ (if calls.has_tmout call then waits.end_of seen.counter call.tmout else Never) }
{
    if errors::has_tmout(call) {
        return end_of(seen.counter, call.tmout);
    }
    End::Never
}

// ── Data queues ──

// Calls 4 to 7.
fn send(call: Call, seen: Seen) -> Decision
    requires at_least { 4 ≤ call.number }
    requires at_most { call.number ≤ 7 }
    ensures { (m : Model) → Taken m call seen → Decided m call result }
{
    let queue = call.object;
    let word = call.value;
    let row = seen.queue;
    if row.receiver != 0 {
        return Decision::Deliver {
            queue,
            task: row.receiver,
            word,
        };
    }
    if row.count < row.capacity {
        return Decision::Store { queue, word };
    }
    if call.number == 7 {
        return Decision::Replace { queue, word };
    }
    let end = end_for(call, seen);
    let wait = Wait::Sending { queue, end, word };
    Decision::Join {
        me: call.caller,
        ranked: row.attribute == 1,
        wait,
    }
}

// Calls 8 to 10.
fn receive(call: Call, seen: Seen) -> Decision
    requires at_least { 8 ≤ call.number }
    requires at_most { call.number ≤ 10 }
    ensures { (m : Model) → Taken m call seen → Decided m call result }
{
    let queue = call.object;
    let row = seen.queue;
    if row.count != 0 {
        if row.sender != 0 {
            return Decision::TakeAndRefill {
                queue,
                task: row.sender,
            };
        }
        return Decision::TakeOldest(queue);
    }
    if row.sender != 0 {
        return Decision::TakeFromSender {
            queue,
            task: row.sender,
        };
    }
    let end = end_for(call, seen);
    let wait = Wait::Receiving { queue, end };
    Decision::Join {
        me: call.caller,
        ranked: false,
        wait,
    }
}

// Calls 2 to 11.
fn on_queue(call: Call, seen: Seen) -> Decision
    requires at_least { 2 ≤ call.number }
    requires at_most { call.number ≤ 11 }
    ensures { (m : Model) → Taken m call seen → Decided m call result }
{
    let queue = call.object;
    let row = seen.queue;
    match call.number {
        2 => Decision::CreateQueue(queue, low_byte(call.attribute), low_byte(call.value)),
        3 => Decision::DeleteQueue(queue),
        4..=7 => send(call, seen),
        8..=10 => receive(call, seen),
        _ => Decision::Say {
            code: Code::Ok,
            a: u32::from(row.sender),
            b: u32::from(row.receiver),
            c: u32::from(row.count),
        },
    }
}

// ── Mailboxes ──

// Call 14.
fn send_message(call: Call, seen: Seen) -> Decision
    requires { call.number ≡ 14 }
    ensures { (m : Model) → Taken m call seen → Decided m call result }
{
    let mailbox = call.object;
    let row = seen.mailbox;
    if row.waiter != 0 {
        return Decision::DeliverMessage {
            mailbox,
            task: row.waiter,
            message: call.value,
        };
    }
    let message = low_byte(call.value);
    Decision::QueueMessage {
        mailbox,
        message,
        priority: call.attribute,
    }
}

// Calls 15 to 17.
fn receive_message(call: Call, seen: Seen) -> Decision
    requires at_least { 15 ≤ call.number }
    requires at_most { call.number ≤ 17 }
    ensures { (m : Model) → Taken m call seen → Decided m call result }
{
    let mailbox = call.object;
    let row = seen.mailbox;
    if row.message != 0 {
        return Decision::TakeMessage(mailbox);
    }
    let end = end_for(call, seen);
    let wait = Wait::AtMailbox { mailbox, end };
    Decision::Join {
        me: call.caller,
        ranked: parts::ranks_waiters(row.attribute),
        wait,
    }
}

// Calls 12 to 18.
fn on_mailbox(call: Call, seen: Seen) -> Decision
    requires at_least { 12 ≤ call.number }
    requires at_most { call.number ≤ 18 }
    ensures { (m : Model) → Taken m call seen → Decided m call result }
{
    let mailbox = call.object;
    let row = seen.mailbox;
    match call.number {
        12 => {
            // The highest message priority is kept with attribute 2 or 3 alone.
            let by_priority = errors::messages_by_priority(call.attribute);
            let highest = if by_priority { low_byte(call.value) } else { 0 };
            Decision::CreateMailbox(mailbox, low_byte(call.attribute), highest)
        }
        13 => Decision::DeleteMailbox(mailbox),
        14 => send_message(call, seen),
        15..=17 => receive_message(call, seen),
        _ => Decision::Say {
            code: Code::Ok,
            a: u32::from(row.waiter),
            b: u32::from(row.message),
            c: 0,
        },
    }
}

// ── Tasks ──

// Call 22.
fn look(row: TaskSeen) -> Decision
    ensures { result ≡ Say E_OK (waits.wait_number row.wait) (waits.wait_object row.wait) (if row.suspended then 1 else 0) }
{
    Decision::Say {
        code: Code::Ok,
        a: u32::from(parts::wait_number(row.wait)),
        b: u32::from(parts::wait_object(row.wait)),
        c: u32::from(row.suspended),
    }
}

// Calls 1 and 19 to 23.
fn on_task(call: Call, seen: Seen) -> Decision
    requires at_least { 1 ≤ call.number }
    requires not_of_an_object { 2 ≤ call.number → 19 ≤ call.number }
    ensures { (m : Model) → Taken m call seen → Decided m call result }
{
    let task = call.object;
    let row = seen.task;
    match call.number {
        1 => Decision::DefineTask {
            task,
            priority: low_byte(call.value),
        },
        19 => Decision::EndWait(task),
        20 => Decision::Suspend {
            task,
            suspended: true,
        },
        21 => Decision::Suspend {
            task,
            suspended: false,
        },
        22 => look(row),
        _ => Decision::Say {
            code: row.code,
            a: row.word,
            b: 0,
            c: 0,
        },
    }
}

// ── Any call ──

// The state is sound; whoever calls this has tested that (step 1 of the error table).
pub fn decide(call: Call, seen: Seen) -> Decision
    ensures { (m : Model) → SeenFor m call seen → Decided m call result }
{
    if call.number == 0 {
        return Decision::Tick;
    }
    if let Err(code) = errors::refusal(call, seen) {
        return Decision::Refuse(code);
    }
    if names::names_queue(call) {
        return on_queue(call, seen);
    }
    if names::names_mailbox(call) {
        return on_mailbox(call, seen);
    }
    on_task(call, seen)
}

// ── What a decision changes ──

#[derive(Clone, Copy)]
pub enum Touched {
    NoTask,
    OneTask(u8),
    EveryTask,
}

// The task whose row it may change: none, one, or any of them.
pub fn touches(decision: Decision) -> Touched
    ensures { Touches decision result }
{
    match decision {
        Decision::DefineTask { task, .. } => Touched::OneTask(task),
        Decision::EndWait(task) => Touched::OneTask(task),
        Decision::Suspend { task, .. } => Touched::OneTask(task),
        Decision::Deliver { task, .. } => Touched::OneTask(task),
        Decision::TakeAndRefill { task, .. } => Touched::OneTask(task),
        Decision::TakeFromSender { task, .. } => Touched::OneTask(task),
        Decision::DeliverMessage { task, .. } => Touched::OneTask(task),
        Decision::Join { me, .. } => Touched::OneTask(me),
        Decision::Tick => Touched::EveryTask,
        Decision::DeleteQueue(_) => Touched::EveryTask,
        Decision::DeleteMailbox(_) => Touched::EveryTask,
        _ => Touched::NoTask,
    }
}

// False where the very state stays.
pub fn changes(decision: Decision) -> bool
    ensures { result ≡ changed_by decision }
{
    match decision {
        Decision::Refuse(_) => false,
        Decision::Say { .. } => false,
        _ => true,
    }
}

// The answer of a decision that changes nothing.
pub fn said(decision: Decision) -> Answer
    ensures { T (not (changed_by decision)) → (m : Model) → result ≡ (after m decision).answer }
{
    match decision {
        Decision::Refuse(code) => Answer {
            outcome: Outcome::Finished(code),
            a: 0,
            b: 0,
            c: 0,
        },
        Decision::Say { code, a, b, c } => Answer {
            outcome: Outcome::Finished(code),
            a,
            b,
            c,
        },
        _ => Answer {
            outcome: Outcome::Finished(Code::Ok),
            a: 0,
            b: 0,
            c: 0,
        },
    }
}
