// The replay of a recording (document 02, item 5) over a record that a host in another language lends: numbers alone. The kernel's state is read from the
// host's record before a block and written back after it.
#![tactic(auto)]

ghost use Rattle.std.specs.Prelude.{◌≡◌};
ghost use Rattle.replays.specs.Files.{New};
ghost use Rattle.host_replay.specs.Replay.{replay_of, stored, BlockFed, LineGiven};

use host_record::HostRecord;
use model::Code;
use recording::RECORD_BYTES;
use replays::{Replay, Tally};

// What a replay keeps between two blocks. What is made of longer numbers comes before what is made of shorter ones, and every byte belongs to a field.
#[repr(C)]
#[derive(Clone, Copy)]
pub struct HostReplay {
    // Three of the line's numbers.
    pub records: u64,
    pub differ: u64,
    pub first: u64,
    // How many bytes there are after the last whole record; they are the first ones of `part`.
    pub length: u64,
    // The kernel's state.
    pub kernel: HostRecord,
    pub part: [u8; RECORD_BYTES],
}

// The line's four numbers, and the code of the end: no `Result`, since hosts in C get it. The spare word is 0.
#[repr(C)]
#[derive(Clone, Copy, Default)]
pub struct HostLine {
    pub records: u64,
    pub differ: u64,
    pub first: u64,
    pub tail: u64,
    pub code: i32,
    pub spare: u32,
}

// Before the first block.
pub fn empty() -> HostReplay
    ensures { New (replay_of result) }
{
    HostReplay {
        records: 0,
        differ: 0,
        first: 0,
        length: 0,
        kernel: host_record::empty(),
        part: [0; RECORD_BYTES],
    }
}

// The replay that the record holds, whatever its numbers are. No `impl From`: that would be public, and only this file asks.
fn replay_of(lent: &HostReplay) -> Replay
    ensures { result ≡ replay_of lent.now }
{
    Replay {
        state: host_record::state_of(lent.kernel),
        tally: Tally {
            records: lent.records,
            differ: lent.differ,
            first: lent.first,
        },
        part: lent.part,
        length: lent.length as usize,
    }
}

// The record that holds the replay after the block.
fn stored(lent: &HostReplay, replay: &Replay) -> HostReplay
    ensures { result ≡ stored lent.now replay.now }
{
    let tally = replay.tally;
    HostReplay {
        records: tally.records,
        differ: tally.differ,
        first: tally.first,
        length: replay.length as u64,
        kernel: host_record::restored(lent.kernel, replay.state),
        part: replay.part,
    }
}

// A block of any length, on whatever record: a refused one leaves the very record.
#[tactic(auto, using(crate::proofs::Blocks::taken))]
pub fn feed(lent: &mut HostReplay, block: &[u8]) -> Result<(), Code>
    ensures fed { BlockFed lent.old block.now lent.new result }
    ensures refused { (code : Code) → result ≡ Err code → lent.new ≡ lent.old }
{
    let mut replay = replay_of(lent);
    replay.feed(block)?;
    *lent = stored(lent, &replay);
    Ok(())
}

// The end, on whatever record. A refused one has four zeros.
pub fn end(lent: &HostReplay) -> HostLine
    ensures { LineGiven lent.now result }
{
    match replay_of(lent).end() {
        Ok(line) => HostLine {
            records: line.tally.records,
            differ: line.tally.differ,
            first: line.tally.first,
            tail: line.tail,
            code: host_calls::number_of(Code::Ok),
            spare: 0,
        },
        Err(code) => HostLine {
            code: host_calls::number_of(code),
            ..HostLine::default()
        },
    }
}
