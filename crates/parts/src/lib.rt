// The parts of the kernel's state: a task, a data queue, a mailbox, and whose each chain is. What each part means, and when it is sound, which is
// document 01's word ("A sound record"), is in specs/. The tests are in the crates task_test and object_test.
#![tactic(auto)]

ghost use Rattle.std.specs.Prelude.{◌≡◌};
ghost use Rattle.model.specs.Rows.{waiters_by_priority, messages_by_priority};
ghost use Rattle.model.specs.Waits.{wait_number, wait_object, held_word, wait_end};
ghost use Rattle.parts.specs.Chains.{wait_chain};
ghost use Rattle.parts.specs.Tasks.{with_wait_ended, with_wait_started, read_code};

use chain::Size;
use model::{Code, End, MAILBOX_LIMIT, MESSAGE_LIMIT, QUEUE_LIMIT, TASK_LIMIT, Wait};
use ring::Ring;

// The table of waiting tasks, and the table of queued messages. specs/Chains.antt says whose each chain is.
// The casts are those of constants, which call no function, as From's would be.
pub const TASKS: usize = TASK_LIMIT as usize;

pub const TASK_CHAINS: usize = WAITERS + MAILBOX_LIMIT as usize;

// How many chains come before those of receivers, and before those of a mailbox's waiters.
pub const RECEIVERS: usize = QUEUE_LIMIT as usize;

pub const WAITERS: usize = RECEIVERS + QUEUE_LIMIT as usize;

pub const MESSAGES: usize = MESSAGE_LIMIT as usize;

pub const MESSAGE_CHAINS: usize = MAILBOX_LIMIT as usize;

pub const TASK_TABLE: Size = Size {
    numbers: TASKS,
    chains: TASK_CHAINS,
};

pub const MESSAGE_TABLE: Size = Size {
    numbers: MESSAGES,
    chains: MESSAGE_CHAINS,
};

// A table by number has a cell 0 before that of number 1.
pub const TASK_CELLS: usize = TASKS + 1;

pub const QUEUE_CELLS: usize = QUEUE_LIMIT as usize + 1;

pub const MAILBOX_CELLS: usize = MAILBOX_LIMIT as usize + 1;

// A task says which wait it is in. Its priority and the number behind it stand in the cells of the same number of the table of waiting tasks.
#[derive(Clone, Copy)]
pub struct Task {
    pub wait: Wait,
    // The stored pair: what the last wait ended with.
    pub word: u32,
    // The code's number without its minus sign (document 01, "A sound record", has a range for it).
    pub code: u8,
    pub defined: bool,
    pub suspended: bool,
}

// Hosts in other languages lend records that hold this struct and the next, so both are numbers alone, and no byte of them is without a name.
#[repr(C)]
#[derive(Clone, Copy)]
pub struct Queue {
    pub ring: Ring,
    // 1 or 0.
    pub defined: u8,
    // 1: senders wait by task priority.
    pub attribute: u8,
    // Says nothing; a new queue has 0 here.
    pub spare: u16,
}

#[repr(C)]
#[derive(Clone, Copy)]
pub struct Mailbox {
    // 1 or 0.
    pub defined: u8,
    // A sum: 1 where waiters go by task priority, 2 where messages go by theirs.
    pub attribute: u8,
    // Kept with attribute 2 or 3 alone.
    pub highest: u8,
}

// Stored codes, without their minus signs.
pub const OK: u8 = 0;

pub const RLWAI: u8 = 49;

pub const TMOUT: u8 = 50;

pub const DLT: u8 = 51;

// The code with this number. A number that no code has reads as E_SYS, which no sound record stores for a task that is defined.
// No impl of From<u8>: only crate model, whose type Code is, could have it, and that crate has no functions.
#[tactic(auto, unfolding(crate::specs::Tasks::read_code))]
pub fn read_code(number: u8) -> Code
    ensures { result ≡ read_code number }
{
    match number {
        0 => Code::Ok,
        17 => Code::Par,
        18 => Code::Id,
        25 => Code::Ctx,
        28 => Code::Iluse,
        41 => Code::Obj,
        42 => Code::Noexs,
        43 => Code::Qovr,
        49 => Code::Rlwai,
        50 => Code::Tmout,
        51 => Code::Dlt,
        _ => Code::Sys,
    }
}

// A task whose wait ended with this code and word: they are its stored pair.
pub fn ended(task: Task, code: u8, word: u32) -> Task
    ensures { result ≡ with_wait_ended code word task }
{
    Task {
        wait: Wait::NoWait,
        word,
        code,
        ..task
    }
}

// A task that starts a wait, with its stored pair cleared.
pub fn started(task: Task, wait: Wait) -> Task
    ensures { result ≡ with_wait_started wait task }
{
    Task {
        wait,
        word: 0,
        code: OK,
        ..task
    }
}

// The wait's number, as look gives it.
pub fn wait_number(wait: Wait) -> u8
    ensures { result ≡ wait_number wait }
{
    match wait {
        Wait::NoWait => 0,
        Wait::Sending { .. } => 1,
        Wait::Receiving { .. } => 2,
        Wait::AtMailbox { .. } => 3,
    }
}

// The number of the object that the task waits at.
pub fn wait_object(wait: Wait) -> u8
    ensures { result ≡ wait_object wait }
{
    match wait {
        Wait::NoWait => 0,
        Wait::Sending { queue, .. } | Wait::Receiving { queue, .. } => queue,
        Wait::AtMailbox { mailbox, .. } => mailbox,
    }
}

// When a wait ends by itself.
pub fn wait_end(wait: Wait) -> End
    ensures { result ≡ wait_end wait }
{
    match wait {
        Wait::NoWait => End::Never,
        Wait::Sending { end, .. } | Wait::Receiving { end, .. } | Wait::AtMailbox { end, .. } =>
            end,
    }
}

// The word that a sender holds.
pub fn held_word(wait: Wait) -> u32
    ensures { result ≡ held_word wait }
{
    match wait {
        Wait::Sending { word, .. } => word,
        Wait::NoWait | Wait::Receiving { .. } | Wait::AtMailbox { .. } => 0,
    }
}

// The chain that a wait names; 0 for none.
pub fn chain_named(wait: Wait) -> usize
    ensures { result ≡ wait_chain wait }
{
    match wait {
        Wait::NoWait => 0,
        Wait::Sending { queue, .. } => usize::from(queue),
        Wait::Receiving { queue, .. } => RECEIVERS + usize::from(queue),
        Wait::AtMailbox { mailbox, .. } => WAITERS + usize::from(mailbox),
    }
}

// Whether waiters go by task priority.
#[tactic(auto, unfolding(lists::specs::Lists::one_of))]
pub fn ranks_waiters(attribute: u8) -> bool
    ensures { result ≡ waiters_by_priority attribute }
{
    matches!(attribute, 1 | 3)
}

// Whether messages go by their priority. Crate errors has the same of a call's attribute, a word: of the two crates neither may use the other.
#[tactic(auto, unfolding(lists::specs::Lists::one_of))]
pub fn ranks_messages(attribute: u8) -> bool
    ensures { result ≡ messages_by_priority attribute }
{
    matches!(attribute, 2 | 3)
}
