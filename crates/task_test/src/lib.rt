// The test whether a task is sound, which is document 01's word ("A sound record"): exact whatever its record holds, once the chains are sound.
#![tactic(auto)]

ghost use Rattle.std.specs.Prelude.{T};
ghost use Rattle.lists.specs.Tests.{Whether};
ghost use Rattle.model.specs.WellFormed.{ends_a_wait, EndAhead};
ghost use Rattle.parts.specs.Tasks.{read_code, NamesChain, WaitSound, TaskSound};

use model::{END_LIMIT, End, PRIORITY_LIMIT, QUEUE_LIMIT, Wait};
use parts::{DLT, OK, RECEIVERS, RLWAI, TMOUT, Task, WAITERS};

// Whether an end is ahead, and not too far.
fn end_sound(end: End, counter: u32) -> bool
    ensures { Whether (EndAhead counter end) result }
{
    match end {
        End::Never => true,
        End::At(tick) => {
            let left = std::num::wrapping_sub_u32(tick, counter);
            (1 <= left) & (left <= END_LIMIT)
        }
    }
}

// Whether an object has this number, and `standing` is its chain: there are `before` chains of other kinds before those of its kind.
fn names_chain(standing: u8, before: u8, number: u8) -> bool
    ensures { Whether (NamesChain standing before number) result }
{
    (1 <= number) & (number <= QUEUE_LIMIT) & (before as u32 + number as u32 == standing as u32)
}

// Whether a wait is sound whose task stands in the chain `standing`, 0 for none.
fn wait_sound(wait: Wait, standing: u8, counter: u32) -> bool
    ensures { Whether (WaitSound counter standing wait) result }
{
    match wait {
        Wait::NoWait => standing == 0,
        Wait::Sending { queue, end, .. } => {
            names_chain(standing, 0, queue) & end_sound(end, counter)
        }
        Wait::Receiving { queue, end } => {
            names_chain(standing, RECEIVERS as u8, queue) & end_sound(end, counter)
        }
        Wait::AtMailbox { mailbox, end } => {
            names_chain(standing, WAITERS as u8, mailbox) & end_sound(end, counter)
        }
    }
}

// Whether a stored code is that of a wait that ended, or E_OK.
fn code_sound(code: u8) -> bool
    ensures { Whether (T (ends_a_wait (read_code code))) result }
{
    (code == OK) | (code == RLWAI) | (code == TMOUT) | (code == DLT)
}

// Whether a task of this priority is sound that stands in the chain `standing`, 0 for none.
pub fn task_sound(task: Task, priority: u8, standing: u8, counter: u32) -> bool
    ensures { Whether (TaskSound counter priority standing task) result }
{
    let wait = task.wait;
    if task.defined {
        if !((1 <= priority) & (priority <= PRIORITY_LIMIT) & code_sound(task.code)) {
            return false;
        }
        return wait_sound(wait, standing, counter);
    }
    !task.suspended & (standing == 0) & (wait == Wait::NoWait)
}
