// Reads records from standard input until no whole one is left, and prints for each whether the kernel's state that it describes is sound.
#![tactic(auto)]

ghost use Rattle.std.specs.Prelude.{◌+◌, ◌<◌, ◌≤◌};

use chain::{CELLS, Chains};
use host_tasks::HostTask;
use parts::{Mailbox, Queue, Task};
use record::State;
use ring::{PLACES, Ring};
use std::io::Read;
use std::{array, io};

// A record's parts, each by the byte that it starts at. Numbers are little-endian.

// Bytes up to the counter, or up to a zero byte.
const LABEL_AT: usize = 0;

// A word.
const COUNTER_AT: usize = 60;

// Cells 0 to 32, 20 bytes each.
const TASKS_AT: usize = 64;

// The table of waiting tasks: its cells, then its keys.
const WAITING_AT: usize = 724;

// Cells 0 to 16, 5 bytes each.
const QUEUES_AT: usize = 870;

// Cells 0 to 16, 3 bytes each.
const MAILBOXES_AT: usize = 955;

// The table of queued messages: its cells, then its keys.
const MESSAGES_AT: usize = 1006;

// The bytes of a whole record.
const RECORD: usize = 1152;

// ── Numbers ──

// The N bytes of a record from here on.
fn bytes_at<const N: usize>(record: &[u8; RECORD], at: usize) -> [u8; N]
    requires { at + N ≤ 1152 }
{
    let mut bytes = [0u8; N];
    bytes.copy_from_slice(&record[at..at + N]);
    bytes
}

fn word_at(record: &[u8; RECORD], at: usize) -> u32
    requires { at + 4 ≤ 1152 }
{
    u32::from_le_bytes(bytes_at(record, at))
}

// ── Tasks ──

// A task's numbers, in the order in which a host's record has them. One that says nothing reads as what no sound record has.
fn task_at(record: &[u8; RECORD], at: usize) -> Task
    requires { at + 20 ≤ 1152 }
{
    Task::from(HostTask {
        word: word_at(record, at),
        end: word_at(record, at + 4),
        sending: word_at(record, at + 8),
        wait: record[at + 12],
        object: record[at + 13],
        timed: record[at + 14],
        code: record[at + 15],
        flags: word_at(record, at + 16),
    })
}

// ── Objects ──

// A data queue's bytes are: defined, attribute, and its ring's head, count and capacity. Soundness asks nothing of the ring's words.
fn queue_at(record: &[u8; RECORD], at: usize) -> Queue
    requires { at + 5 ≤ 1152 }
{
    let ring = Ring {
        words: [0; PLACES],
        head: record[at + 2],
        count: record[at + 3],
        capacity: record[at + 4],
        spare: 0,
    };
    Queue {
        ring,
        defined: record[at],
        attribute: record[at + 1],
        spare: 0,
    }
}

// A mailbox's bytes are: defined, attribute, highest message priority.
fn mailbox_at(record: &[u8; RECORD], at: usize) -> Mailbox
    requires { at + 3 ≤ 1152 }
{
    Mailbox {
        defined: record[at],
        attribute: record[at + 1],
        highest: record[at + 2],
    }
}

// ── Chains ──

// A table: its cells, then its keys.
fn chains_at(record: &[u8; RECORD], at: usize) -> Chains
    requires { at + 146 ≤ 1152 }
{
    Chains {
        link: bytes_at(record, at),
        key: bytes_at(record, at + CELLS),
    }
}

// ── Records ──

// The state that a record describes. In cells 0 anything may stand.
fn state_of(record: &[u8; RECORD]) -> State {
    State {
        counter: word_at(record, COUNTER_AT),
        tasks: array::from_fn(|t| task_at(record, TASKS_AT + 20 * t)),
        queues: array::from_fn(|n| queue_at(record, QUEUES_AT + 5 * n)),
        waiting: chains_at(record, WAITING_AT),
        messages: chains_at(record, MESSAGES_AT),
        mailboxes: array::from_fn(|n| mailbox_at(record, MAILBOXES_AT + 3 * n)),
    }
}

// Prints a record's label, whose bytes may be any.
fn print_label(rt: &impl Print, record: &[u8; RECORD]) -> io::Result<()> {
    let label = &record[LABEL_AT..COUNTER_AT];
    let end = label
        .iter()
        .position(|byte| *byte == 0)
        .unwrap_or(label.len());
    rt.write_all(&label[..end])
}

// Prints the answer, which ends the line.
fn print_answer(rt: &impl Print, sound: bool) -> io::Result<()> {
    if sound {
        rt.write_all(b": sound\n")
    } else {
        rt.write_all(b": not sound\n")
    }
}

// Reads a record and prints its line. False where no whole record is left. A read that fails counts as the end; one that a signal interrupts is made again.
fn answer_record(rt: &impl Print, input: &mut impl Read) -> io::Result<bool> {
    let mut record = [0u8; RECORD];
    if input.read_exact(&mut record).is_err() {
        return Ok(false);
    }
    let state = state_of(&record);
    print_label(rt, &record)?;
    print_answer(rt, see::sound(&state))?;
    Ok(true)
}

// A proved loop has to end, and nothing says that the input does. So the loop counts its turns, up to a number that no run reaches.
fn main(rt: HostRuntime) -> io::Result<()> {
    let mut input = rt.stdin();
    for _ in 0..u64::MAX {
        if !answer_record(&rt, &mut input)? {
            break;
        }
    }
    Ok(())
}
