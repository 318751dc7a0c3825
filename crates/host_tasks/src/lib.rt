// A task in numbers alone, as a record that a host in another language lends keeps it. The toolchain exports no reference that leads to an enum, and to a
// program in C a tag or a Boolean is a byte that may hold anything; so every field is a number, and every number is read as something.
#![tactic(auto)]

ghost use Rattle.std.specs.Prelude.{◌≡◌, map};
ghost use Rattle.host_tasks.specs.Tasks.{read_end, wait_of, defined_by, suspended_by, read_task, timed_of, tick_of, flags_of, write_task, same_numbers, rewritten, rewrite_all};

use model::{End, Wait};
use parts::{TASK_CELLS, Task};

// A number that no data queue has.
const NO_QUEUE: u8 = 255;

// A task's numbers; no byte of them is without a name. Its priority and the number behind it stand with the chains.
#[repr(C)]
#[derive(Clone, Copy, PartialEq)]
pub struct HostTask {
    // The stored pair's word.
    pub word: u32,
    // The tick that ends the wait, where it is timed.
    pub end: u32,
    // The word that a sender waits with.
    pub sending: u32,
    // 0 no wait, 1 sending, 2 receiving, 3 mailbox: the numbers that look gives.
    pub wait: u8,
    // The data queue or mailbox that the task waits at.
    pub object: u8,
    // 1 where a tick ends the wait, 0 where none does.
    pub timed: u8,
    // The stored pair's code, without its minus sign.
    pub code: u8,
    // A sum: 1 defined, 2 suspended.
    pub flags: u32,
}

// The C interface has numbers for the end of a wait, for its kind and for the two Booleans: so each is read and written by a function of its own.
fn read_end(timed: u8, tick: u32) -> End
    ensures { result ≡ read_end timed tick }
{
    match timed {
        0 => End::Never,
        _ => End::At(tick),
    }
}

// What the task waits for. A number that says nothing reads as a wait at a data queue that there isn't, which no sound record has.
#[tactic(auto, unfolding(crate::specs::Tasks::wait_of))]
fn wait_of(numbers: HostTask) -> Wait
    ensures { result ≡ wait_of numbers }
{
    let object = numbers.object;
    let timed = numbers.timed;
    let tick = numbers.end;
    match (numbers.wait, timed) {
        (0, _) => Wait::NoWait,
        (1, 0 | 1) => Wait::Sending {
            queue: object,
            end: read_end(timed, tick),
            word: numbers.sending,
        },
        (2, 0 | 1) => Wait::Receiving {
            queue: object,
            end: read_end(timed, tick),
        },
        (3, 0 | 1) => Wait::AtMailbox {
            mailbox: object,
            end: read_end(timed, tick),
        },
        _ => Wait::Sending {
            queue: NO_QUEUE,
            end: End::Never,
            word: 0,
        },
    }
}

// What the flags say. They are a sum: 1 defined, 2 suspended.
fn is_defined(flags: u32) -> bool
    ensures { result ≡ defined_by flags }
{
    matches!(flags, 1 | 3)
}

fn is_suspended(flags: u32) -> bool
    ensures { result ≡ suspended_by flags }
{
    1 < flags
}

impl From<HostTask> for Task {
    ghost from_gives = { λ numbers result. result ≡ read_task numbers };

    #[tactic(auto, unfolding(crate::specs::Tasks::read_task))]
    fn from(numbers: HostTask) -> Task {
        Task {
            wait: wait_of(numbers),
            word: numbers.word,
            code: numbers.code,
            defined: is_defined(numbers.flags),
            suspended: is_suspended(numbers.flags),
        }
    }
}

// All tasks of a record.
pub fn tasks_of(numbers: [HostTask; TASK_CELLS]) -> [Task; TASK_CELLS]
    ensures { result ≡ map read_task numbers }
{
    // No `map`: each call of a host would take some 1,250 instructions more.
    let first = Task::from(numbers[0]);
    let mut tasks = [first; TASK_CELLS];
    for t in 1..TASK_CELLS {
        tasks[t] = Task::from(numbers[t]);
    }
    tasks
}

fn timed_of(end: End) -> u8
    ensures { result ≡ timed_of end }
{
    match end {
        End::Never => 0,
        End::At(_) => 1,
    }
}

fn tick_of(end: End) -> u32
    ensures { result ≡ tick_of end }
{
    match end {
        End::Never => 0,
        End::At(tick) => tick,
    }
}

fn flags_of(defined: bool, suspended: bool) -> u32
    ensures { result ≡ flags_of defined suspended }
{
    u32::from(defined) + 2 * u32::from(suspended)
}

// The numbers of a task. Those that say nothing of it are 0.
impl From<Task> for HostTask {
    ghost from_gives = { λ task result. result ≡ write_task task };

    #[tactic(auto, unfolding(crate::specs::Tasks::write_task))]
    fn from(task: Task) -> HostTask {
        let wait = task.wait;
        let end = parts::wait_end(wait);
        HostTask {
            word: task.word,
            end: tick_of(end),
            sending: parts::held_word(wait),
            wait: parts::wait_number(wait),
            object: parts::wait_object(wait),
            timed: timed_of(end),
            code: task.code,
            flags: flags_of(task.defined, task.suspended),
        }
    }
}

// The numbers of a task, written over others. Those that read as the task already stay: a table of which all calls are refused leaves every byte.
fn rewritten(numbers: HostTask, task: Task) -> HostTask
    ensures { result ≡ rewritten numbers task }
{
    let new = HostTask::from(task);
    let old = HostTask::from(Task::from(numbers));
    if new == old { numbers } else { new }
}

// All tasks of a record.
pub fn rewrite_all(
    mut numbers: [HostTask; TASK_CELLS],
    tasks: [Task; TASK_CELLS],
) -> [HostTask; TASK_CELLS]
    ensures { result ≡ rewrite_all numbers tasks }
{
    for n in 0..TASK_CELLS {
        numbers[n] = rewritten(numbers[n], tasks[n]);
    }
    numbers
}
