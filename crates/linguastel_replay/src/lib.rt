// The replay of a recording in blocks (document 02, item 5) for hosts in C or Rust, over a record that the host lends. Crate linguastel_replay_c has it
// under its C names, in a library of its own: a second place from which the kernel's functions are called would make both dearer (docs/DECISIONS.md).
// A function named unguarded is handed a pointer that nothing here can test for null or for its alignment: the C header's functions of the plain names test it
// first, and safe Rust has no such pointer.
#![tactic(auto)]

ghost use Rattle.std.specs.Prelude.{◌≡◌};
ghost use Rattle.replays.specs.Files.{New};
ghost use Rattle.host_calls.specs.Version.{version};
ghost use Rattle.host_replay.specs.Replay.{replay_of, BlockTaken, LineGiven};
ghost use Rattle.host_replay.specs.Layout.{replay_size, replay_align};

use host_replay::{HostLine, HostReplay};
use model::Code;

// The version of this library, for a host to compare with that of its header.
pub fn linguastel_replay_version() -> u32
    ensures { result ≡ version }
{
    host_calls::VERSION
}

// The bytes of the record, and what its address has to be a multiple of.
pub fn linguastel_replay_size() -> usize
    ensures { result ≡ replay_size }
{
    2296
}

pub fn linguastel_replay_align() -> usize
    ensures { result ≡ replay_align }
{
    8
}

// Makes the record a new replay, whatever it held: the empty state at counter 0, and nothing counted.
pub fn linguastel_unguarded_replay_empty(lent: &mut HostReplay)
    ensures { New (replay_of lent.new) }
{
    *lent = host_replay::empty();
}

// One block, also of no bytes, on whatever record is lent. A refused one writes nothing.
pub fn linguastel_unguarded_replay_feed(lent: &mut HostReplay, block: &[u8]) -> i32
    ensures { BlockTaken lent.old block.now lent.new result }
{
    let code = match host_replay::feed(lent, block) {
        Ok(()) => Code::Ok,
        Err(code) => code,
    };
    host_calls::number_of(code)
}

// The end of the recording, on whatever record is lent. It changes nothing, so that a host may ask for the line between two blocks as well.
pub fn linguastel_unguarded_replay_end(lent: &HostReplay) -> HostLine
    ensures { LineGiven lent.now result }
{
    host_replay::end(lent)
}
