// The replay of a recording (document 02, item 3), fed blocks of any length (item 5). A replay state is tested once a block, so no record pays for the test.
#![tactic(auto)]

ghost use Rattle.std.specs.Prelude.{◌≡◌, Some, cond, [], ◌++◌, ◌+◌, ◌<◌, ◌≤◌, ◌/◌, eqb, ltb, length, take};
ghost use Rattle.lists.specs.Tests.{Whether};
ghost use Rattle.record.specs.Meaning.{abs};
ghost use Rattle.record.specs.Sound.{Sound};
ghost use Rattle.recording.specs.Blocks.{counted, Possible};
ghost use Rattle.replays.specs.Replays.{no_records, numbers_of, as_if_whole, meaning, SoundReplay, ReadFrom, AfterBytes, count_limit, TakesBlock, Ends, text};
ghost use Rattle.replays.specs.Files.{New};

use decide::Decision;
use model::Code;
use record::{State, Step};
use recording::{RECORD_BYTES, Recorded};
use std::fmt;

// Three of the line's numbers.
#[derive(Clone, Copy, Default)]
pub struct Tally {
    pub records: u64,
    pub differ: u64,
    // The number of the first record that differs, from 1; 0 for none.
    pub first: u64,
}

// What the replay keeps between two blocks.
#[derive(Clone, Copy)]
pub struct Replay {
    pub state: State,
    pub tally: Tally,
    // The bytes after the last whole record are the first `length` of these. Array and length stand apart as in the record that C hosts lend: memory is fixed.
    pub part: [u8; RECORD_BYTES],
    pub length: usize,
}

// The line at the end of the recording.
#[derive(Clone, Copy)]
pub struct Line {
    pub tally: Tally,
    // The bytes after the last whole record.
    pub tail: u64,
}

// The four numbers, each behind its name. A name, the space behind it and a number are a piece each: where they are written one by one and the writing fails
// in the midst of the line, the pieces before are out.
impl fmt::Display for Line {
    ghost output = { λ line. Some (text line) };

    fn fmt<W: fmt::Write>(&self, f: &mut fmt::Formatter<W>) -> fmt::Result {
        let Tally {
            records,
            differ,
            first,
        } = self.tally;
        let tail = self.tail;
        write!(
            f,
            "{} {records}{} {differ}{} {first}{} {tail}",
            "records", " differ", " first", " tail"
        )
    }
}

// What a record that is run comes to on a state: the call's decision, and the answer to compare with.
#[derive(Clone, Copy)]
pub struct Reading {
    pub decision: Decision,
    pub recorded: Recorded,
}

// ── One record ──

// None of a record that isn't run.
pub fn read_record(state: State, bytes: &[u8]) -> Option<Reading>
    requires sound { Sound state }
    requires whole_record { length bytes.now ≡ 32 }
    ensures { ReadFrom state bytes.now result }
{
    let run = recording::decode(bytes)?;
    Some(Reading {
        decision: kernel::judge_sound(state, run.call),
        recorded: run.recorded,
    })
}

// The first record that differs, where this one does.
fn first_of(earlier: u64, this: u64) -> u64
    ensures { result ≡ cond (eqb earlier 0) this earlier }
{
    if earlier == 0 { this } else { earlier }
}

impl Tally {
    // One record more.
    fn counted(self, differs: bool) -> Tally
        requires below_limit { self.records < count_limit }
        requires differ_within { self.differ ≤ self.records }
        ensures { numbers_of result ≡ counted (numbers_of self) differs }
    {
        let records = self.records + 1;
        if !differs {
            return Tally { records, ..self };
        }
        Tally {
            records,
            differ: self.differ + 1,
            first: first_of(self.first, records),
        }
    }

    // Neither differ nor first is above records, and both are 0 or none is. Nothing more is asked of them.
    fn is_possible(self) -> bool
        ensures { Whether (Possible (numbers_of self)) result }
    {
        let none_differs = self.differ == 0;
        let no_first = self.first == 0;
        (self.differ <= self.records) & (self.first <= self.records) & (none_differs == no_first)
    }
}

// ── Blocks ──

// Whether so many records would pass 64 bits with those that a part and so many bytes make whole. The two lengths are never added: the sum might not fit. Of a
// part above 31 bytes nothing is said.
fn would_pass(records: u64, part: usize, bytes: usize) -> bool
    ensures { part ≤ 31 → result ≡ ltb count_limit (records + (part + bytes) / 32) }
{
    let more = bytes / RECORD_BYTES + (part % RECORD_BYTES + bytes % RECORD_BYTES) / RECORD_BYTES;
    u64::MAX - records < more as u64
}

// The part with these bytes behind those that it has.
fn appended(mut part: [u8; RECORD_BYTES], has: usize, bytes: &[u8]) -> [u8; RECORD_BYTES]
    requires { has + length bytes.now ≤ 32 }
    ensures as_long { length result ≡ 32 }
    ensures joined { take (has + length bytes.now) result ≡ take has part ++ bytes.now }
{
    part[has..has + bytes.len()].copy_from_slice(bytes);
    part
}

impl Replay {
    // Before the first block.
    pub fn new() -> Replay
        ensures { New result }
    {
        Replay {
            state: State::empty(),
            tally: Tally::default(),
            part: [0; RECORD_BYTES],
            length: 0,
        }
    }

    // The bytes as if no part stood before them: their whole records are played, and the rest is kept.
    fn play(&mut self, bytes: &[u8])
        requires sound_replay { SoundReplay self.old }
        requires within_limit { self.old.tally.records + length bytes.now / 32 ≤ count_limit }
        ensures { AfterBytes (as_if_whole self.old) bytes.now self.new }
    {
        let (records, rest) = bytes.as_chunks::<RECORD_BYTES>();
        // The state stands in what the last record left, which saves a copy of it.
        let mut last = Step {
            state: self.state,
            answer: record::finished(Code::Ok, 0, 0, 0),
        };
        let mut tally = self.tally;
        for record in records {
            let Some(reading) = read_record(last.state, record) else {
                tally = tally.counted(true);
                continue;
            };
            let decision = reading.decision;
            let answer = if decide::changes(decision) {
                last = kernel::apply(last.state, decision);
                last.answer
            } else {
                decide::said(decision)
            };
            tally = tally.counted(!recording::same_answer(reading.recorded, answer));
        }
        self.state = last.state;
        self.tally = tally;
        self.part = appended(self.part, 0, rest);
        self.length = rest.len();
    }

    // A part that becomes whole is played first.
    fn take(&mut self, block: &[u8])
        requires sound_replay { SoundReplay self.old }
        requires within_limit { self.old.tally.records + (self.old.length + length block.now) / 32 ≤ count_limit }
        ensures { AfterBytes (meaning self.old) block.now self.new }
    {
        let length = self.length;
        if length == 0 {
            self.play(block);
            return;
        }
        let missing = RECORD_BYTES - length;
        if block.len() < missing {
            self.part = appended(self.part, length, block);
            self.length = length + block.len();
            return;
        }
        let part = appended(self.part, length, &block[..missing]);
        self.play(&part);
        self.play(&block[missing..]);
    }

    // Whether the replay state is one that item 5 lets through: the part and the numbers, and the kernel's state.
    fn is_sound(&self) -> bool
        ensures { Whether (SoundReplay self.now) result }
    {
        (self.length < RECORD_BYTES) & self.tally.is_possible() & see::sound(&self.state)
    }

    // A block of any length, also of no bytes, on whatever replay state. A refused one leaves the replay as it was.
    pub fn feed(&mut self, block: &[u8]) -> Result<(), Code>
        ensures { TakesBlock self.old block.now self.new result }
    {
        if !self.is_sound() {
            return Err(Code::Sys);
        }
        if would_pass(self.tally.records, self.length, block.len()) {
            return Err(Code::Par);
        }
        self.take(block);
        Ok(())
    }

    // The end of the recording, on whatever replay state.
    pub fn end(&self) -> Result<Line, Code>
        ensures { Ends self.now result }
    {
        if self.is_sound() {
            Ok(Line {
                tally: self.tally,
                tail: self.length as u64,
            })
        } else {
            Err(Code::Sys)
        }
    }
}
