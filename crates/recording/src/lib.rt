// A call with its answer in the 32 bytes that a unit records (document 02, item 3): what the bytes say.
#![tactic(auto)]

ghost use Rattle.std.specs.Prelude.{◌≡◌, ◌||◌, ◌+◌, ◌≤◌, ltb, length};
ghost use Rattle.model.specs.Sizes.{call_limit};
ghost use Rattle.model.specs.Codes.{values};
ghost use Rattle.recording.specs.Recording.{half, word, recorded_call, spare_is_zero};
ghost use Rattle.recording.specs.Replay.{same_values};
ghost use Rattle.recording.specs.Decoded.{recorded_answer, recorded_as, values_of, decoded};

use model::{Answer, CALL_LIMIT, Call, Outcome};

pub const RECORD_BYTES: usize = 32;

// Flag 1 is locked, flag 2 dispatching disabled; 3 is both.
const LOCKED: u8 = 1;

const DISABLED: u8 = 2;

const BOTH: u8 = 3;

// The answer's kind.
const FINISHED: u8 = 0;

const WAITS: u8 = 1;

// Kinds from here on are unknown.
const FIRST_UNKNOWN: u8 = 2;

// An outcome in document 01's numbers.
#[derive(Clone, Copy, PartialEq)]
pub enum RecordedOutcome {
    // The code; not each number is one.
    Finished(i32),
    // The place.
    Waits(u32),
    // A kind that no answer has, counted from `FIRST_UNKNOWN`, and the word in the place of code or place. So each recorded kind has a value here.
    Unknown(u8, u32),
}

// The answer as it was recorded.
#[derive(Clone, Copy, PartialEq)]
pub struct Recorded {
    pub outcome: RecordedOutcome,
    pub a: u32,
    pub b: u32,
    pub c: u32,
}

// A record that is run.
#[derive(Clone, Copy)]
pub struct Run {
    pub call: Call,
    pub recorded: Recorded,
}

// ── Numbers ──

// Two bytes, the lower first.
fn half_at(bytes: &[u8], at: usize) -> u32
    requires { at + 2 ≤ length bytes.now }
    ensures { result ≡ half bytes.now at }
{
    u32::from(u16::from_le_bytes([bytes[at], bytes[at + 1]]))
}

// Four bytes, the lowest first.
pub fn word_at(bytes: &[u8], at: usize) -> u32
    requires { at + 4 ≤ length bytes.now }
    ensures { result ≡ word bytes.now at }
{
    u32::from_le_bytes([bytes[at], bytes[at + 1], bytes[at + 2], bytes[at + 3]])
}

// ── A record ──

// Bytes 0 to 15. No `From`: neither `Call` nor a slice is a type of this crate.
pub fn call_of(bytes: &[u8]) -> Call
    requires { length bytes.now ≡ 32 }
    ensures { result ≡ recorded_call bytes.now }
{
    let flags = bytes[2];
    Call {
        number: bytes[0],
        caller: bytes[1],
        locked: matches!(flags, LOCKED | BOTH),
        disabled: matches!(flags, DISABLED | BOTH),
        object: bytes[3],
        value: word_at(bytes, 4),
        tmout: word_at(bytes, 8).cast_signed(),
        attribute: word_at(bytes, 12),
    }
}

// Bytes 16 to 30.
fn recorded_answer(bytes: &[u8]) -> Recorded
    requires { length bytes.now ≡ 32 }
    ensures { result ≡ recorded_answer bytes.now }
{
    let kind = bytes[16];
    let said = word_at(bytes, 20);
    let outcome = if kind == FINISHED {
        RecordedOutcome::Finished(said.cast_signed())
    } else if kind == WAITS {
        RecordedOutcome::Waits(said)
    } else {
        RecordedOutcome::Unknown(kind - FIRST_UNKNOWN, said)
    };
    Recorded {
        outcome,
        a: word_at(bytes, 24),
        b: u32::from(bytes[28]),
        c: half_at(bytes, 29),
    }
}

// Bytes 17 to 19 and 31 are 0.
fn spare_is_zero(bytes: &[u8]) -> bool
    requires { length bytes.now ≡ 32 }
    ensures { result ≡ spare_is_zero bytes.now }
{
    (bytes[17] == 0) & (bytes[18] == 0) & (bytes[19] == 0) & (bytes[31] == 0)
}

// An unknown call, kind or flag; the tick's number, 0, is known.
fn is_unknown(number: u8, kind: u8, flags: u8) -> bool
    ensures { result ≡ (ltb call_limit number || ltb 1 kind || ltb 3 flags) }
{
    (CALL_LIMIT < number) | (WAITS < kind) | (BOTH < flags)
}

// The call and the answer of a record; none of one that isn't run: its call, its kind or one of its flags is unknown, or a spare byte isn't 0.
pub fn decode(bytes: &[u8]) -> Option<Run>
    requires { length bytes.now ≡ 32 }
    ensures { result ≡ decoded bytes.now }
{
    let unknown = is_unknown(bytes[0], bytes[16], bytes[2]);
    if unknown | !spare_is_zero(bytes) {
        return None;
    }
    Some(Run {
        call: call_of(bytes),
        recorded: recorded_answer(bytes),
    })
}

impl From<Answer> for Recorded {
    ghost from_gives = { λ answer r. r ≡ recorded_as answer };

    fn from(answer: Answer) -> Recorded {
        let outcome = match answer.outcome {
            Outcome::Finished(code) => RecordedOutcome::Finished(host_calls::number_of(code)),
            Outcome::Waits(place) => RecordedOutcome::Waits(place),
        };
        Recorded {
            outcome,
            a: answer.a,
            b: answer.b,
            c: answer.c,
        }
    }
}

// Whether the recorded answer is this one.
pub fn same_answer(recorded: Recorded, answer: Answer) -> bool
    ensures { result ≡ same_values (values_of recorded) (values answer) }
{
    recorded == Recorded::from(answer)
}
