// The types of the interface: what a call hands over, what it answers, and what a task's record says of its wait.
// The definition of every call is in specs/; this crate has no code.
#![tactic(auto)]

// Document 01, "The kernel part we mean": the sizes, as specs/Sizes.antt has them. The smallest number of each kind is 1.
pub const CALL_LIMIT: u8 = 23;

pub const TASK_LIMIT: u8 = 32;

pub const QUEUE_LIMIT: u8 = 16;

pub const MAILBOX_LIMIT: u8 = 16;

pub const MESSAGE_LIMIT: u8 = 64;

// The most words that a data queue stores.
pub const CAPACITY_LIMIT: u8 = 16;

// Of tasks and of messages.
pub const PRIORITY_LIMIT: u8 = 16;

pub const TMOUT_LIMIT: i32 = 2147483646;

// The latest end tick of a sound record, in ticks from now: that of the largest tmout (document 02, item 1).
pub const END_LIMIT: u32 = 2147483647;

// The most calls in a table (document 02, item 2).
pub const TABLE_LIMIT: usize = 64;

// A call with its context: the call's fields of the 32-byte record that units write (document 02, item 3), its two flags apart.
#[derive(Clone, Copy)]
pub struct Call {
    // The number in document 01's table of calls.
    pub number: u8,
    // The task that calls; 0 for a handler or start-up.
    pub caller: u8,
    // CPU locked.
    pub locked: bool,
    // Dispatching disabled.
    pub disabled: bool,
    // The task, data queue or mailbox that the call names.
    pub object: u8,
    // Word, message, capacity, task priority or highest message priority.
    pub value: u32,
    // -1 waits for ever, 0 polls.
    pub tmout: i32,
    // Attribute or message priority.
    pub attribute: u32,
}

// E_OK and the errors. specs/Codes.antt gives each its number.
#[derive(Clone, Copy)]
pub enum Code {
    Ok,
    Sys,
    Par,
    Id,
    Ctx,
    Iluse,
    Obj,
    Noexs,
    Qovr,
    Rlwai,
    Tmout,
    Dlt,
}

#[derive(Clone, Copy)]
pub enum Outcome {
    Finished(Code),
    // The place: how many waiters stay ahead.
    Waits(u32),
}

// The words are 0 where document 01 names none.
#[derive(Clone, Copy)]
pub struct Answer {
    pub outcome: Outcome,
    pub a: u32,
    pub b: u32,
    pub c: u32,
}

// When a wait ends by itself. An enum of its own: document 01's list of forms by place names an end enum, for ever or at a tick.
#[derive(Clone, Copy, PartialEq)]
pub enum End {
    Never,
    // In the tick that brings the counter here.
    At(u32),
}

// What a task waits for.
#[derive(Clone, Copy, PartialEq)]
pub enum Wait {
    NoWait,
    Sending { queue: u8, end: End, word: u32 },
    Receiving { queue: u8, end: End },
    AtMailbox { mailbox: u8, end: End },
}
