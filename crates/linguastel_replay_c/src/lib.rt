// What hosts in C or Rust link: the functions of crate linguastel_replay under their C names. hosts/library makes the archive.
#![tactic(auto)]

ghost use Rattle.std.specs.Prelude.{◌≡◌};
ghost use Rattle.replays.specs.Files.{New};
ghost use Rattle.host_calls.specs.Version.{version};
ghost use Rattle.host_replay.specs.Replay.{replay_of, BlockTaken, LineGiven};
ghost use Rattle.host_replay.specs.Layout.{replay_size, replay_align};

use host_replay::{HostLine, HostReplay};

#[unsafe(no_mangle)]
pub extern "C" fn linguastel_replay_version() -> u32
    ensures { result ≡ version }
{
    linguastel_replay::linguastel_replay_version()
}

#[unsafe(no_mangle)]
pub extern "C" fn linguastel_replay_size() -> usize
    ensures { result ≡ replay_size }
{
    linguastel_replay::linguastel_replay_size()
}

#[unsafe(no_mangle)]
pub extern "C" fn linguastel_replay_align() -> usize
    ensures { result ≡ replay_align }
{
    linguastel_replay::linguastel_replay_align()
}

#[unsafe(no_mangle)]
pub extern "C" fn linguastel_unguarded_replay_empty(lent: &mut HostReplay)
    ensures { New (replay_of lent.new) }
{
    linguastel_replay::linguastel_unguarded_replay_empty(lent)
}

#[unsafe(no_mangle)]
pub extern "C" fn linguastel_unguarded_replay_feed(lent: &mut HostReplay, block: &[u8]) -> i32
    ensures { BlockTaken lent.old block.now lent.new result }
{
    linguastel_replay::linguastel_unguarded_replay_feed(lent, block)
}

#[unsafe(no_mangle)]
pub extern "C" fn linguastel_unguarded_replay_end(lent: &HostReplay) -> HostLine
    ensures { LineGiven lent.now result }
{
    linguastel_replay::linguastel_unguarded_replay_end(lent)
}
