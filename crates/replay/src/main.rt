// Replays a recording (document 02, item 3): reads it from standard input to its end, in blocks (item 5), and prints the line. Where a read fails, or a block or
// the end is refused, it says so on standard error and prints no line.
#![tactic(auto)]

use model::Code;
use replays::Replay;
use std::io;
use std::io::{ErrorKind, IsTerminal, Read, Write};
use std::ops::ControlFlow;

// After so many reads a terminal is shown how far the replay is.
const READS_BETWEEN: u64 = 4096;

// The bytes of one read at most.
const BUFFER: usize = 65536;

// Only a terminal is shown this, and only for a long recording.
fn show_progress(rt: &HostRuntime, replay: &Replay, reads_left: u64) {
    if reads_left % READS_BETWEEN != 0 {
        return;
    }
    if !rt.stderr().is_terminal() {
        return;
    }
    let records = replay.tally.records;
    let _ = eprintln!(rt; "records {records} so far");
}

// A read that a signal interrupted before its first byte is made again. Of any other that failed a line tells why.
fn after_failure(rt: &impl Eprint, error: io::Error) -> ControlFlow<()> {
    if error.kind() == ErrorKind::Interrupted {
        return ControlFlow::Continue(());
    }
    let _ = eprintln!(rt; "standard input: {error}");
    ControlFlow::Break(())
}

// Why a block or the end was refused; a replay that began with `new` is never refused with E_SYS.
fn tell_refusal(rt: &impl Eprint, code: Code) {
    let _ = match code {
        Code::Par => eprintln!(rt; "standard input: more records than 64 bits count"),
        _ => eprintln!(rt; "the replay's state is not sound"),
    };
}

fn print_line(rt: &HostRuntime, replay: &Replay) {
    match replay.end() {
        Ok(line) => {
            if let Err(error) = writeln!(rt.stdout(), "{line}") {
                let _ = eprintln!(rt; "standard output: {error}");
            }
        }
        Err(code) => tell_refusal(rt, code),
    }
}

// One read: as many bytes as there are, up to the buffer's. It goes on where there may be more.
fn turn(rt: &HostRuntime, replay: &mut Replay) -> ControlFlow<()> {
    let mut buffer = [0u8; BUFFER];
    let count = match rt.stdin().read(&mut buffer) {
        Ok(count) => count,
        Err(error) => return after_failure(rt, error),
    };
    if count == 0 {
        print_line(rt, replay);
        return ControlFlow::Break(());
    }
    match replay.feed(&buffer[..count]) {
        Ok(()) => ControlFlow::Continue(()),
        Err(code) => {
            tell_refusal(rt, code);
            ControlFlow::Break(())
        }
    }
}

// A proved loop has to end, and nothing says that the input does. So the reads are counted down, from a number that no run uses up.
fn main(rt: HostRuntime) {
    let mut replay = Replay::new();
    for reads_left in (0..u64::MAX).rev() {
        if turn(&rt, &mut replay).is_break() {
            return;
        }
        show_progress(&rt, &replay, reads_left);
    }
}
