// What the calls on data queues do where no row of the error table refuses them (document 01, "Sending and receiving"). Each function does what the definition
// of its name says (model: specs/DataQueues.antt).
#![tactic(auto)]

ghost use Rattle.std.specs.Prelude.{not, T};
ghost use Rattle.lists.specs.Lists.{empty};
ghost use Rattle.model.specs.Rows.{has_room};
ghost use Rattle.model.specs.DataQueues.{create, delete, deliver, store, replace_oldest, take_oldest, take_oldest_and_refill, take_from_sender};
ghost use Rattle.record.specs.Step.{Does};
ghost use Rattle.data_queues.specs.Premises.{queue_in, AtQueue, Creatable};

use model::Code;
use parts::{OK, Queue, RECEIVERS, TASK_TABLE};
use record::{State, Step};
use ring::Ring;

// ── Creating and deleting ──

pub fn create(mut state: State, queue: u8, attribute: u8, capacity: u8) -> Step
    requires { Creatable state queue capacity }
    ensures { Does (create queue attribute capacity) state result }
{
    let ring = Ring::new(capacity);
    state.queues[queue as usize] = Queue {
        ring,
        defined: 1,
        attribute,
        spare: 0,
    };
    let answer = record::finished(Code::Ok, 0, 0, 0);
    Step { state, answer }
}

// All waits end with E_DLT, the senders' first; the stored words are gone.
pub fn delete(mut state: State, queue: u8) -> Step
    requires { AtQueue state queue }
    ensures { Does (delete queue (queue_in state queue)) state result }
{
    let q = queue as usize;
    waits::end_all(&mut state, q);
    waits::end_all(&mut state, RECEIVERS + q);
    let ring = Ring::new(0);
    state.queues[q] = Queue {
        ring,
        defined: 0,
        attribute: 0,
        spare: 0,
    };
    let answer = record::finished(Code::Ok, 0, 0, 0);
    Step { state, answer }
}

// ── Sending ──

// The head receiver gets the word, which isn't stored.
pub fn deliver(mut state: State, queue: u8, word: u32) -> Step
    requires { AtQueue state queue × T (not (empty (queue_in state queue).receivers)) }
    ensures { Does (deliver queue (queue_in state queue) word) state result }
{
    let receivers = RECEIVERS + queue as usize;
    let t = state.waiting.pop(TASK_TABLE, receivers) as usize;
    state.tasks[t] = parts::ended(state.tasks[t], OK, word);
    let answer = record::finished(Code::Ok, 0, 0, 0);
    Step { state, answer }
}

// The word goes to the tail of those stored.
pub fn store(mut state: State, queue: u8, word: u32) -> Step
    requires { AtQueue state queue × T (has_room (queue_in state queue)) }
    ensures { Does (store queue (queue_in state queue) word) state result }
{
    state.queues[queue as usize].ring.push(word);
    let answer = record::finished(Code::Ok, 0, 0, 0);
    Step { state, answer }
}

// fsnd at a full queue: the oldest word is lost, the new one goes to the tail.
pub fn replace_oldest(mut state: State, queue: u8, word: u32) -> Step
    requires { AtQueue state queue × T (not (empty (queue_in state queue).words)) }
    ensures { Does (replace_oldest queue (queue_in state queue) word) state result }
{
    state.queues[queue as usize].ring.drop_oldest_and_push(word);
    let answer = record::finished(Code::Ok, 0, 0, 0);
    Step { state, answer }
}

// ── Receiving ──

// Words are stored and no sender waits.
pub fn take_oldest(mut state: State, queue: u8) -> Step
    requires { AtQueue state queue × T (not (empty (queue_in state queue).words)) }
    ensures { Does (take_oldest queue (queue_in state queue)) state result }
{
    let taken = state.queues[queue as usize].ring.pop();
    let answer = record::finished(Code::Ok, taken, 0, 0);
    Step { state, answer }
}

// Words are stored and a sender waits: its word goes to the tail, and its wait ends.
pub fn take_oldest_and_refill(mut state: State, queue: u8) -> Step
    requires { AtQueue state queue × T (not (empty (queue_in state queue).words)) × T (not (empty (queue_in state queue).senders)) }
    ensures { Does (take_oldest_and_refill queue (queue_in state queue)) state result }
{
    let q = queue as usize;
    let t = state.waiting.pop(TASK_TABLE, q) as usize;
    let sender = state.tasks[t];
    let word = parts::held_word(sender.wait);
    state.tasks[t] = parts::ended(sender, OK, 0);
    let ring = &mut state.queues[q].ring;
    let oldest = ring.pop();
    ring.push(word);
    let answer = record::finished(Code::Ok, oldest, 0, 0);
    Step { state, answer }
}

// No word is stored and a sender waits, so the capacity is 0: its word is handed over, and its wait ends.
pub fn take_from_sender(mut state: State, queue: u8) -> Step
    requires { AtQueue state queue × T (not (empty (queue_in state queue).senders)) }
    ensures { Does (take_from_sender queue (queue_in state queue)) state result }
{
    let q = queue as usize;
    let t = state.waiting.pop(TASK_TABLE, q) as usize;
    let holder = state.tasks[t];
    let word = parts::held_word(holder.wait);
    state.tasks[t] = parts::ended(holder, OK, 0);
    let answer = record::finished(Code::Ok, word, 0, 0);
    Step { state, answer }
}
