// Plays calls on one state record in one of three ways, so that what a call costs can be counted from outside (bench/enter): through the entry, by
// the step behind the soundness test, or not at all. It reads records of 32 bytes (document 02, item 3) from standard input: the first says how, in
// its byte 0, and gives the counter, in its bytes 4 to 7; the next make the record through the entry; those behind the mark are played as the first
// says, as often as the input has them. It prints a checksum of their answers.
#![tactic(auto)]

ghost use Rattle.std.specs.Prelude.{◌≡◌, length};
ghost use Rattle.record.specs.Sound.{Sound};
ghost use Rattle.record.specs.Step.{Stepped};

use kernel::Kernel;
use model::{Answer, Call, Code, Outcome, Wait};
use parts::{OK, Task};
use record::{State, Step};
use recording::RECORD_BYTES;
use std::io;
use std::io::Read;

// A record with this number is no call: it is the mark.
const MARK: u8 = 255;

// Nor is one with this number: the host takes away the task of byte 3, which no call does.
const UNDEFINE: u8 = 254;

// The records behind the mark are played through the entry.
const ENTER: u8 = 1;

// They are played by the step behind the test. With any other number they aren't played.
const ADVANCE: u8 = 2;

// ── Records ──

// The next record of the input; none at the end, or where bytes of it are missing. A read that fails is the end too. One that a signal interrupts is made again.
fn read_record(input: &mut impl io::Read) -> Option<[u8; RECORD_BYTES]> {
    let mut bytes = [0u8; RECORD_BYTES];
    input.read_exact(&mut bytes).ok()?;
    Some(bytes)
}

// ── The checksum ──

// The sum with one word more.
fn mixed(sum: u32, word: u32) -> u32 {
    sum.rotate_left(5) ^ word
}

// A code counts without its sign. A wait's place is told from it by a bit that neither has.
fn with_outcome(sum: u32, outcome: Outcome) -> u32 {
    match outcome {
        Outcome::Finished(code) => mixed(sum, host_calls::number_of(code).unsigned_abs()),
        Outcome::Waits(place) => mixed(sum, place ^ 65536),
    }
}

fn with_answer(sum: u32, answer: Answer) -> u32 {
    [answer.a, answer.b, answer.c].iter().fold(
        with_outcome(sum, answer.outcome),
        |sum, word| mixed(sum, *word),
    )
}

// ── Playing ──

// The record without this task, where it is sound so.
fn undefined(state: State, task: u8) -> State
    requires { Sound state }
    ensures { Sound result }
{
    if 32 < task {
        return state;
    }
    let mut next = state;
    next.tasks[usize::from(task)] = Task {
        wait: Wait::NoWait,
        word: 0,
        code: OK,
        defined: false,
        suspended: false,
    };
    if see::sound(&next) { next } else { state }
}

// The empty record with this counter.
fn started(counter: u32) -> State
    ensures { Sound result }
{
    let empty = State::empty();
    let state = State { counter, ..empty };
    if see::sound(&state) { state } else { empty }
}

// One call through the entry.
fn through(mut state: State, call: Call) -> Step
    ensures { Stepped state call result }
{
    let answer = entry::enter(&mut state, call);
    Step { state, answer }
}

// One call by the step behind the test.
fn advance(state: State, call: Call) -> Step
    requires { Sound state }
    ensures { Stepped state call result }
{
    Kernel { state }.advance(call)
}

// No call: its own fields stand for an answer.
fn unplayed(state: State, call: Call) -> Step
    ensures { result.state ≡ state }
{
    let answer = record::finished(Code::Ok, call.value, u32::from(call.object), call.attribute);
    Step { state, answer }
}

// The records up to the mark, each through the entry. A proved loop has to end, and nothing says that the input does: so the turns are counted.
fn set_up(input: &mut impl io::Read, counter: u32) -> State
    ensures { Sound result }
{
    let mut state = started(counter);
    for _ in 0..u64::MAX {
        let Some(record) = read_record(input) else {
            return state;
        };
        if record[0] == MARK {
            return state;
        }
        state = through(state, recording::call_of(&record)).state;
    }
    state
}

// One record behind the mark: what is done with it, and its answer.
fn lap<F: Fn(State, Call) -> Step>(state: State, call: Call, step: &F) -> Step
    requires sound { Sound state }
    requires plays { (s : State) (c : Call) → Sound s → F.pre step.now s c }
    requires keeps { (s : State) (c : Call) (r : Step) → Sound s → F.post step.now s c r → Sound r.state }
    ensures { Sound result.state }
{
    if call.number == UNDEFINE {
        return Step {
            state: undefined(state, call.object),
            answer: record::finished(Code::Ok, 0, 0, 0),
        };
    }
    step(state, call)
}

// The records behind the mark, and the checksum of their answers.
fn play<F: Fn(State, Call) -> Step>(input: &mut impl io::Read, start: State, step: F) -> u32
    requires sound { Sound start }
    requires plays { (s : State) (c : Call) → Sound s → F.pre step s c }
    requires keeps { (s : State) (c : Call) (r : Step) → Sound s → F.post step s c r → Sound r.state }
{
    let mut state = start;
    let mut sum: u32 = 1;
    for _ in 0..u64::MAX {
        let Some(record) = read_record(input) else {
            return sum;
        };
        let done = lap(state, recording::call_of(&record), &step);
        state = done.state;
        sum = with_answer(sum, done.answer);
    }
    sum
}

// Where the first record is cut short, the bytes that are there count, and zeros behind them.
fn main(rt: HostRuntime) -> io::Result<()> {
    let mut input = rt.stdin();
    let mut record = [0u8; RECORD_BYTES];
    let _ = input.read_exact(&mut record);
    let start = set_up(&mut input, recording::word_at(&record, 4));
    let sum = match record[0] {
        ENTER => play(&mut input, start, through),
        ADVANCE => play(&mut input, start, advance),
        _ => play(&mut input, start, unplayed),
    };
    println!(rt; "{sum}")
}
