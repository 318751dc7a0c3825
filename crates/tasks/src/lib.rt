// What calls 1 and 19 to 21 do to a task where no row of the error table applies to them, and the tick (document 01, "Task states and ticks").
#![tactic(auto)]

ghost use Rattle.std.specs.Prelude.{◌≡◌, not, T};
ghost use Rattle.model.specs.Codes.{done};
ghost use Rattle.model.specs.Rows.{task, valid};
ghost use Rattle.model.specs.Tasks.{define, set_suspension};
ghost use Rattle.model.specs.Waits.{able, wait_end, due};
ghost use Rattle.model.specs.WaitQueues.{end_wait};
ghost use Rattle.model.specs.declared.Code.TheVariants.{Rlwai as E_RLWAI};
ghost use Rattle.parts.specs.Tasks.{read_code};
ghost use Rattle.record.specs.Meaning.{abs};
ghost use Rattle.record.specs.Sound.{Sound};
ghost use Rattle.record.specs.Step.{Does};
ghost use Rattle.waits.specs.Waiting.{Endable, Ended};
ghost use Rattle.tasks.specs.Tick.{Ticked};

use model::{Code, End, Wait};
use parts::{OK, RLWAI, TASK_TABLE, TASKS, TMOUT, Task};
use record::{State, Step};

// 1: "a new task .. is able and not suspended". Its priority is its key in the table of waiting tasks.
pub fn define(mut state: State, t: u8, priority: u8) -> Step
    requires { Sound state × T (valid (task t)) }
    ensures { Does (define t priority) state result }
{
    let i = t as usize;
    state.waiting.set_key(i, priority);
    state.tasks[i] = Task {
        wait: Wait::NoWait,
        word: 0,
        code: OK,
        defined: true,
        suspended: false,
    };
    let answer = record::finished(Code::Ok, 0, 0, 0);
    Step { state, answer }
}

// A task leaves the chain that its wait names, and the wait ends with this code. A sender's word is withdrawn with its wait, where it stands.
fn end_one(state: &mut State, t: u8, code: u8)
    requires { Endable state.old t }
    ensures { Ended state.old t (read_code code) state.new }
{
    let i = t as usize;
    let task = state.tasks[i];
    let chain = parts::chain_named(task.wait);
    state.waiting.remove(TASK_TABLE, chain, t);
    state.tasks[i] = parts::ended(task, code, 0);
}

// 19: the wait ends with E_RLWAI.
pub fn end_wait(mut state: State, t: u8) -> Step
    requires { Sound state × T (valid (task t)) × T (not (able ((abs state).rows (task t)).wait)) }
    ensures { Does (end_wait t E_RLWAI done) state result }
{
    end_one(&mut state, t, RLWAI);
    let answer = record::finished(Code::Ok, 0, 0, 0);
    Step { state, answer }
}

// 20, 21: a task that waits goes on waiting.
pub fn suspend(mut state: State, t: u8, suspended: bool) -> Step
    requires { Sound state × T (valid (task t)) }
    ensures { Does (set_suspension t suspended) state result }
{
    let i = t as usize;
    state.tasks[i].suspended = suspended;
    let answer = record::finished(Code::Ok, 0, 0, 0);
    Step { state, answer }
}

// Whether a wait is over when the counter has this value. By equality: less-than would go wrong where the counter wraps.
fn due(wait: Wait, counter: u32) -> bool
    ensures { result ≡ due counter (wait_end wait) }
{
    parts::wait_end(wait) == End::At(counter)
}

// 0: the counter goes on, and waits whose end tick it has reached end with E_TMOUT, in ascending task number; a is how many.
pub fn tick(mut state: State) -> Step
    requires { Sound state }
    ensures { Ticked state result }
{
    let counter = state.counter.wrapping_add(1);
    state.counter = counter;
    let mut count: u32 = 0;
    for next in 1..=TASKS as u8 {
        if due(state.tasks[next as usize].wait, counter) {
            end_one(&mut state, next, TMOUT);
            count += 1;
        }
    }
    let answer = record::finished(Code::Ok, count, 0, 0);
    Step { state, answer }
}
