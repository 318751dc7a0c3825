// Document 01, "Error numbers and their order", as code: which row of the table refuses a call, from what is seen of the rows that the
// call has in view. A test has the name that it has in crates/model/specs; the three rows that ask several tests have a function each.
// The tests are joined by | and &, which ask both sides: each side is cheap, and so there are few branches.
#![tactic(auto)]

ghost use Rattle.std.specs.Prelude.{◌≡◌, true, ◌&&◌, ◌||◌};
ghost use Rattle.model.specs.Sizes as sizes;
ghost use Rattle.model.specs.Rows as rows;
ghost use Rattle.model.specs.Calls as calls;
ghost use Rattle.model.specs.Calls.{View};
ghost use Rattle.model.specs.Waits as waits;
ghost use Rattle.model.specs.Errors as table;
ghost use Rattle.errors.specs.Seen.{Shows, is_ok, refusal_of};

use model::{
    CALL_LIMIT, CAPACITY_LIMIT, Call, Code, MAILBOX_LIMIT, MESSAGE_LIMIT, PRIORITY_LIMIT,
    QUEUE_LIMIT, TASK_LIMIT, TMOUT_LIMIT, Wait,
};

// ── What is seen of the rows in view ──

#[derive(Clone, Copy)]
pub struct TaskSeen {
    pub defined: bool,
    pub suspended: bool,
    pub wait: Wait,
    // The stored pair.
    pub code: Code,
    pub word: u32,
}

// The heads of the two wait queues; 0 for none.
#[derive(Clone, Copy)]
pub struct QueueSeen {
    pub defined: bool,
    pub attribute: u8,
    pub capacity: u8,
    // How many words are stored.
    pub count: u8,
    pub sender: u8,
    pub receiver: u8,
}

// The head waiter and the head message; 0 for none.
#[derive(Clone, Copy)]
pub struct MailboxSeen {
    pub defined: bool,
    pub attribute: u8,
    pub highest: u8,
    pub waiter: u8,
    pub message: u8,
}

#[derive(Clone, Copy)]
pub struct Seen {
    pub counter: u32,
    pub caller: TaskSeen,
    pub task: TaskSeen,
    pub queue: QueueSeen,
    pub mailbox: MailboxSeen,
    // The message is queued in no mailbox.
    pub message_free: bool,
}

// In no wait.
pub fn able(wait: Wait) -> bool
    ensures { result ≡ waits.able wait }
{
    matches!(wait, Wait::NoWait)
}

// ── Which calls ──

// The calls that make a task or an object, and the calls with a tmout.
#[tactic(auto, unfolding(lists::specs::Lists::one_of))]
fn creates(call: Call) -> bool
    ensures { result ≡ calls.creates call }
{
    matches!(call.number, 1 | 2 | 12)
}

#[tactic(auto, unfolding(lists::specs::Lists::one_of))]
pub fn has_tmout(call: Call) -> bool
    ensures { result ≡ calls.has_tmout call }
{
    matches!(call.number, 6 | 10 | 17)
}

// ── Step 0 ──

#[tactic(auto, unfolding(model::specs::Errors::unknown))]
fn unknown(call: Call) -> bool
    ensures { result ≡ table.unknown call }
{
    CALL_LIMIT < call.number
}

// ── Step 1 ──

#[tactic(auto, unfolding(model::specs::Errors::caller_cannot_call))]
fn caller_cannot_call(call: Call, seen: Seen) -> bool
    ensures { (v : View) → Shows v call seen → result ≡ table.caller_cannot_call v.caller call }
{
    let n = call.caller;
    let caller = seen.caller;
    let wait = caller.wait;
    (n != 0) & ((TASK_LIMIT < n) | !caller.defined | !able(wait) | caller.suspended)
}

// ── Step 2 ──

#[tactic(auto, unfolding(model::specs::Errors::called_while_locked))]
fn called_while_locked(call: Call) -> bool
    ensures { result ≡ table.called_while_locked call }
{
    call.locked & (1..=CALL_LIMIT).contains(&call.number)
}

// The calls that only a task can make.
#[tactic(auto, unfolding(lists::specs::Lists::one_of))]
fn task_only(call: Call) -> bool
    ensures { result ≡ calls.task_only call }
{
    matches!(call.number, 3 | 4 | 6 | 8 | 10 | 13 | 15 | 17)
}

#[tactic(auto, unfolding(model::specs::Errors::called_by_handler))]
fn called_by_handler(call: Call) -> bool
    ensures { result ≡ table.called_by_handler call }
{
    (call.caller == 0) & task_only(call)
}

// Call 20 naming the task that calls, never for caller 0.
#[tactic(auto, unfolding(model::specs::Errors::suspends_itself))]
fn suspends_itself(call: Call) -> bool
    ensures { result ≡ table.suspends_itself call }
{
    (call.number == 20) & (call.object == call.caller) & (call.caller != 0)
}

#[tactic(auto, unfolding(model::specs::Errors::called_while_disabled, lists::specs::Lists::one_of))]
fn called_while_disabled(call: Call) -> bool
    ensures { result ≡ table.called_while_disabled call }
{
    let may_wait = matches!(call.number, 4 | 6 | 8 | 10 | 15 | 17);
    call.disabled & (may_wait | suspends_itself(call))
}

fn wrong_context(call: Call) -> bool
    ensures { result ≡ (table.called_while_locked call || table.called_by_handler call || table.called_while_disabled call) }
{
    called_while_locked(call) | called_by_handler(call) | called_while_disabled(call)
}

// ── Step 3 ──

// Number 0 is refused as well.
#[tactic(auto, unfolding(model::specs::Errors::number_outside))]
fn number_outside(call: Call) -> bool
    ensures { result ≡ table.number_outside call }
{
    let n = call.object;
    names::names_task(call) & !(1..=TASK_LIMIT).contains(&n)
        | names::names_queue(call) & !(1..=QUEUE_LIMIT).contains(&n)
        | names::names_mailbox(call) & !(1..=MAILBOX_LIMIT).contains(&n)
}

// ── Step 4 ──

#[tactic(auto, unfolding(model::specs::Errors::tmout_outside))]
fn tmout_outside(call: Call) -> bool
    ensures { result ≡ table.tmout_outside call }
{
    let tmout = call.tmout;
    has_tmout(call) & ((tmout < -1) | (TMOUT_LIMIT < tmout))
}

#[tactic(auto, unfolding(model::specs::Errors::attribute_outside))]
fn attribute_outside(call: Call) -> bool
    ensures { result ≡ table.attribute_outside call }
{
    let attribute = call.attribute;
    (call.number == 2) & !(0..=1).contains(&attribute)
        | (call.number == 12) & !(0..=3).contains(&attribute)
}

#[tactic(auto, unfolding(model::specs::Errors::capacity_outside))]
fn capacity_outside(call: Call) -> bool
    ensures { result ≡ table.capacity_outside call }
{
    (call.number == 2) & (u32::from(CAPACITY_LIMIT) < call.value)
}

#[tactic(auto, unfolding(model::specs::Errors::task_priority_outside))]
fn task_priority_outside(call: Call) -> bool
    ensures { result ≡ table.task_priority_outside call }
{
    (call.number == 1) & !(1..=u32::from(PRIORITY_LIMIT)).contains(&call.value)
}

#[tactic(auto, unfolding(model::specs::Errors::message_outside))]
fn message_outside(call: Call) -> bool
    ensures { result ≡ table.message_outside call }
{
    names::names_message(call) & !(1..=u32::from(MESSAGE_LIMIT)).contains(&call.value)
}

// Of a call's attribute. Crate parts has the same of a mailbox's, a byte: of the two crates neither may use the other.
#[tactic(auto, unfolding(lists::specs::Lists::one_of))]
pub fn messages_by_priority(attribute: u32) -> bool
    ensures { result ≡ rows.messages_by_priority attribute }
{
    matches!(attribute, 2 | 3)
}

#[tactic(auto, unfolding(model::specs::Errors::highest_outside))]
fn highest_outside(call: Call) -> bool
    ensures { result ≡ table.highest_outside call }
{
    (call.number == 12)
        & messages_by_priority(call.attribute)
        & !(1..=u32::from(PRIORITY_LIMIT)).contains(&call.value)
}

fn field_outside(call: Call) -> bool
    ensures { result ≡ (table.tmout_outside call || table.attribute_outside call || table.capacity_outside call
        || table.task_priority_outside call || table.message_outside call || table.highest_outside call) }
{
    tmout_outside(call)
        | attribute_outside(call)
        | capacity_outside(call)
        | task_priority_outside(call)
        | message_outside(call)
        | highest_outside(call)
}

// ── Step 5 ──

#[tactic(auto, unfolding(model::specs::Errors::exists))]
fn exists(call: Call, seen: Seen) -> bool
    ensures { (v : View) → Shows v call seen → result ≡ table.exists v call }
{
    names::names_task(call) & seen.task.defined
        | names::names_queue(call) & seen.queue.defined
        | names::names_mailbox(call) & seen.mailbox.defined
}

#[tactic(auto, unfolding(model::specs::Errors::missing))]
fn missing(call: Call, seen: Seen) -> bool
    ensures { (v : View) → Shows v call seen → result ≡ table.missing v call }
{
    !creates(call) & !exists(call, seen)
}

// ── Steps 6a to 6d ──

#[tactic(auto, unfolding(model::specs::Errors::message_priority_outside))]
fn message_priority_outside(call: Call, seen: Seen) -> bool
    ensures { (v : View) → Shows v call seen → result ≡ table.message_priority_outside v call }
{
    let by_priority = messages_by_priority(u32::from(seen.mailbox.attribute));
    let highest = u32::from(seen.mailbox.highest);
    names::names_message(call) & by_priority & !(1..=highest).contains(&call.attribute)
}

// 1, 2, 12: already exists. 14: message already queued. 19: task not waiting. 21: task not suspended. 23: task waiting.
#[tactic(auto, using(crate::proofs::Laws::seen_by_resume), unfolding(model::specs::Errors::wrong_state))]
fn wrong_state(call: Call, seen: Seen) -> bool
    ensures { (v : View) → Shows v call seen → result ≡ table.wrong_state v call }
{
    let n = call.number;
    let task = seen.task;
    let wait = task.wait;
    let is_able = able(wait);
    creates(call) & exists(call, seen)
        | names::names_message(call) & !seen.message_free
        | (n == 19) & is_able
        | (n == 21) & !task.suspended
        | (n == 23) & !is_able
}

#[tactic(auto, using(crate::proofs::Laws::seen_by_suspend), unfolding(model::specs::Errors::suspended_already))]
fn suspended_already(call: Call, seen: Seen) -> bool
    ensures { (v : View) → Shows v call seen → result ≡ table.suspended_already v call }
{
    (call.number == 20) & seen.task.suspended
}

// A waiting receiver is served, whatever the capacity.
#[tactic(auto, unfolding(model::specs::Errors::nothing_to_drop))]
fn nothing_to_drop(call: Call, seen: Seen) -> bool
    ensures { (v : View) → Shows v call seen → result ≡ table.nothing_to_drop v call }
{
    (call.number == 7) & (seen.queue.capacity == 0) & (seen.queue.receiver == 0)
}

// ── Step 7 ──

#[tactic(auto, unfolding(model::specs::Errors::polls, lists::specs::Lists::one_of))]
fn polls(call: Call) -> bool
    ensures { result ≡ table.polls call }
{
    let polling = matches!(call.number, 5 | 9 | 16);
    polling | has_tmout(call) & (call.tmout == 0)
}

// A send with no receiver and no room, a receive with no word and no sender, a receive from a mailbox with no message.
fn would_wait(call: Call, seen: Seen) -> bool
    ensures { (v : View) → Shows v call seen → result ≡ table.would_wait v call }
{
    let n = call.number;
    let count = seen.queue.count;
    let room = count < seen.queue.capacity;
    (4..=6).contains(&n) & (seen.queue.receiver == 0) & !room
        | (8..=10).contains(&n) & (count == 0) & (seen.queue.sender == 0)
        | (15..=17).contains(&n) & (seen.mailbox.message == 0)
}

fn poll_would_wait(call: Call, seen: Seen) -> bool
    ensures { (v : View) → Shows v call seen → result ≡ (table.polls call && table.would_wait v call) }
{
    polls(call) & would_wait(call, seen)
}

// ── The table ──

// Steps 5 to 7, for a call that passes those before.
#[tactic(auto, unfolding(model::specs::Errors::rows_from_step_5, model::specs::Errors::first_that_applies))]
fn refusal_from_step_5(call: Call, seen: Seen) -> Result<(), Code>
    ensures { (v : View) → Shows v call seen → result ≡ refusal_of (table.first_that_applies (table.rows_from_step_5 v call)) }
{
    if missing(call, seen) {
        return Err(Code::Noexs);
    }
    if message_priority_outside(call, seen) {
        return Err(Code::Par);
    }
    if wrong_state(call, seen) {
        return Err(Code::Obj);
    }
    if suspended_already(call, seen) {
        return Err(Code::Qovr);
    }
    if nothing_to_drop(call, seen) {
        return Err(Code::Iluse);
    }
    if poll_would_wait(call, seen) {
        return Err(Code::Tmout);
    }
    Ok(())
}

// The code of the first row that applies, if one does. Step 1's test of the state is made before (crate see).
#[tactic(auto, using(crate::proofs::Table::by_row))]
pub fn refusal(call: Call, seen: Seen) -> Result<(), Code>
    ensures { (v : View) → Shows v call seen → result ≡ refusal_of (table.refusal v call) }
{
    if unknown(call) {
        return Err(Code::Par);
    }
    if caller_cannot_call(call, seen) {
        return Err(Code::Sys);
    }
    if wrong_context(call) {
        return Err(Code::Ctx);
    }
    if number_outside(call) {
        return Err(Code::Id);
    }
    if field_outside(call) {
        return Err(Code::Par);
    }
    refusal_from_step_5(call, seen)
}

// True exactly for E_OK.
pub fn accepts(code: Code) -> bool
    ensures { result ≡ is_ok code }
{
    matches!(code, Code::Ok)
}
