// The record that a host in another language lends: numbers alone. Its tasks are read as the kernel's at the border, and those that a call may have changed are
// written back; all other parts are the kernel's own.
#![tactic(auto)]

ghost use Rattle.std.specs.Prelude.{◌≡◌};
ghost use Rattle.model.specs.Rows.{empty_state};
ghost use Rattle.host_record.specs.Record.{state_of, HostSound, meaning};
ghost use Rattle.host_record.specs.Written.{number_written, TasksWritten, restored};
ghost use Rattle.decide.specs.declared.Touched.TheVariants.{EveryTask};
ghost use Rattle.host_record.specs.Step.{CallJudged, Said, Stored};
ghost use Rattle.host_record.specs.Sets.{SetsOf};

use chain::Chains;
use decide::{Decision, Touched};
use host_calls::{HostAnswer, HostCall};
use host_tasks::HostTask;
use model::Call;
use parts::{MAILBOX_CELLS, Mailbox, QUEUE_CELLS, Queue, TASK_CELLS, Task};
use record::{State, Step};

// Cell n belongs to number n, as in `State`. What is made of words comes before what is made of bytes, and every byte belongs to a field.
#[repr(C)]
#[derive(Clone, Copy)]
pub struct HostRecord {
    pub counter: u32,
    pub tasks: [HostTask; TASK_CELLS],
    pub queues: [Queue; QUEUE_CELLS],
    pub waiting: Chains,
    pub messages: Chains,
    pub mailboxes: [Mailbox; MAILBOX_CELLS],
    // Says nothing. A call that changes something makes it 0; a table keeps it.
    pub spare: u8,
}

// The state that the record holds, whatever its numbers are. An array goes into a literal through a variable, here and below: the check covers no literal that
// takes it straight from another value's field.
pub fn state_of(lent: HostRecord) -> State
    ensures { result ≡ state_of lent }
{
    let queues = lent.queues;
    let mailboxes = lent.mailboxes;
    State {
        counter: lent.counter,
        tasks: host_tasks::tasks_of(lent.tasks),
        queues,
        waiting: lent.waiting,
        messages: lent.messages,
        mailboxes,
    }
}

// The numbers of all tasks, written anew.
fn write_all(
    mut numbers: [HostTask; TASK_CELLS],
    tasks: [Task; TASK_CELLS],
) -> [HostTask; TASK_CELLS]
    ensures { TasksWritten numbers tasks EveryTask result }
{
    for t in 1..TASK_CELLS {
        numbers[t] = HostTask::from(tasks[t]);
    }
    numbers
}

// Whose numbers are written where not all are: where no task was touched, those of number 0, which is nobody's.
fn number_written(touched: Touched) -> Option<u8>
    ensures { result ≡ number_written touched }
{
    match touched {
        Touched::NoTask => Some(0),
        Touched::OneTask(task) => Some(task),
        Touched::EveryTask => None,
    }
}

// The numbers of the tasks after a step: those of the one task that it touched, of none, or of all are written anew.
fn tasks_after(
    mut numbers: [HostTask; TASK_CELLS],
    tasks: [Task; TASK_CELLS],
    touched: Touched,
) -> [HostTask; TASK_CELLS]
    ensures { TasksWritten numbers tasks touched result }
{
    let Some(number) = number_written(touched) else {
        return write_all(numbers, tasks);
    };
    let one = number as usize;
    if one < TASK_CELLS {
        numbers[one] = HostTask::from(tasks[one]);
    }
    numbers
}

// The record in which nothing is defined, at counter 0.
pub fn empty() -> HostRecord
    ensures { HostSound result × (meaning result ≡ empty_state 0) }
{
    let none = HostTask {
        word: 0,
        end: 0,
        sending: 0,
        wait: 0,
        object: 0,
        timed: 0,
        code: 0,
        flags: 0,
    };
    let state = State::empty();
    let queues = state.queues;
    let mailboxes = state.mailboxes;
    HostRecord {
        counter: state.counter,
        tasks: [none; TASK_CELLS],
        queues,
        waiting: state.waiting,
        messages: state.messages,
        mailboxes,
        spare: 0,
    }
}

// ── Which tasks wait, and which can run ──

// Bit n - 1 of each number stands for task n.
#[repr(C)]
#[derive(Clone, Copy)]
pub struct TaskSets {
    pub waiting: u32,
    pub runnable: u32,
}

// What look tells of one task, of all of them, whatever the record is.
pub fn task_sets(lent: &HostRecord) -> TaskSets
    ensures { SetsOf lent.now result }
{
    let mut waiting: u32 = 0;
    let mut runnable: u32 = 0;
    for t in (1..TASK_CELLS).rev() {
        let task = Task::from(lent.tasks[t]);
        let waits = parts::wait_number(task.wait) != 0;
        waiting = u32::from(waits) + 2 * waiting;
        runnable = u32::from(task.defined & !waits & !task.suspended) + 2 * runnable;
    }
    TaskSets { waiting, runnable }
}

// ── The parts of a call on a lent record; crate linguastel puts them together ──

// What a call, or with number 0 the tick, comes to on whatever state.
pub fn judge(state: State, call: HostCall) -> Decision
    ensures { CallJudged state call result }
{
    kernel::judge(state, Call::from(call))
}

// The answer of a call that changes nothing.
pub fn said(decision: Decision) -> HostAnswer
    ensures { Said decision result }
{
    HostAnswer::from(decide::said(decision))
}

// The record that holds the new state: the tasks that the call touched are written back.
pub fn stored(lent: HostRecord, stepped: Step, decision: Decision) -> HostRecord
    ensures { Stored lent stepped decision result }
{
    let queues = stepped.state.queues;
    let mailboxes = stepped.state.mailboxes;
    HostRecord {
        counter: stepped.state.counter,
        tasks: tasks_after(lent.tasks, stepped.state.tasks, decide::touches(decision)),
        queues,
        waiting: stepped.state.waiting,
        messages: stepped.state.messages,
        mailboxes,
        spare: 0,
    }
}

// ── The end of a table of calls on a lent record; crate linguastel_table has the walk ──

// The record that holds the state after the last call: its tasks are written back once a table, and what they say already stays as it is.
pub fn restored(lent: HostRecord, last: State) -> HostRecord
    ensures { result ≡ restored lent last }
{
    let queues = last.queues;
    let mailboxes = last.mailboxes;
    HostRecord {
        counter: last.counter,
        tasks: host_tasks::rewrite_all(lent.tasks, last.tasks),
        queues,
        waiting: last.waiting,
        messages: last.messages,
        mailboxes,
        spare: lent.spare,
    }
}
