// The table of calls (document 02, item 2) for hosts in C or Rust: over the record and the two tables that the host lends. Crate linguastel_table_c has it
// under its C name, in a library of its own: a second place from which the kernel's functions are called would make both dearer (docs/DECISIONS.md).
// A function named unguarded is handed a pointer that nothing here can test for null or for its alignment: the C header's functions of the plain names test it
// first, and safe Rust has no such pointer.
#![tactic(auto)]

ghost use Rattle.std.specs.Prelude.{◌≡◌};
ghost use Rattle.host_calls.specs.Version.{version};
ghost use Rattle.linguastel_table.specs.TableCalled.{TableCalled};

use host_calls::{HostAnswer, HostCall};
use host_record::HostRecord;
use model::{Call, Code};

// The version of this library, for a host to compare with that of its header.
pub fn linguastel_table_version() -> u32
    ensures { result ≡ version }
{
    host_calls::VERSION
}

// The same walk as in crate table_entry. The tasks are read before the first call and written back after the last one.
pub fn linguastel_unguarded_table(
    lent: &mut HostRecord,
    calls: &[HostCall],
    answers: &mut [HostAnswer],
) -> i32
    ensures { TableCalled lent.old calls.now answers.old lent.new answers.new result }
{
    let mut state = host_record::state_of(*lent);
    if let Err(code) = tables::test(state, calls.len(), answers.len()) {
        return host_calls::number_of(code);
    }
    // Crate thin has this walk over any types: by its seven closures it is no plainer.
    for (i, call) in calls.iter().enumerate() {
        let decision = tables::judge(state, Call::from(*call));
        let changes = decide::changes(decision);
        answers[i] = if changes {
            let stepped = kernel::apply(state, decision);
            state = stepped.state;
            HostAnswer::from(stepped.answer)
        } else {
            host_record::said(decision)
        };
    }
    *lent = host_record::restored(*lent, state);
    host_calls::number_of(Code::Ok)
}
