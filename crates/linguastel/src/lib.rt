// The functions that hosts call, in C or Rust: thin entries over the record that the host lends. Crate linguastel_c has them under their C names.
// A function named unguarded is handed a pointer that nothing here can test for null or for its alignment: the C header's functions of the plain names test it
// first, and safe Rust has no such pointer.
#![tactic(auto)]

ghost use Rattle.std.specs.Prelude.{◌≡◌};
ghost use Rattle.model.specs.Rows.{empty_state};
ghost use Rattle.host_record.specs.Record.{HostSound, meaning};
ghost use Rattle.host_calls.specs.Version.{version};
ghost use Rattle.linguastel.specs.Called.{Called};
ghost use Rattle.host_record.specs.Layout.{record_size, record_align};
ghost use Rattle.host_record.specs.Sets.{SetsOf};

use host_calls::{HostAnswer, HostCall};
use host_record::{HostRecord, TaskSets};

// The version of this library, for a host to compare with that of its header.
pub fn linguastel_version() -> u32
    ensures { result ≡ version }
{
    host_calls::VERSION
}

// The bytes of the record, and what its address has to be a multiple of.
pub fn linguastel_record_size() -> usize
    ensures { result ≡ record_size }
{
    2232
}

pub fn linguastel_record_align() -> usize
    ensures { result ≡ record_align }
{
    4
}

// Makes the record empty, whatever it held: nothing is defined, the counter is 0.
pub fn linguastel_unguarded_empty(lent: &mut HostRecord)
    ensures { HostSound lent.new × (meaning lent.new ≡ empty_state 0) }
{
    *lent = host_record::empty();
}

// One call, or with number 0 the tick, on whatever record is lent. A call that changes nothing, a refused one for instance, writes nothing. No tick and no
// test of the record stands beside this: a second place from which their functions are called would make both dearer (docs/DECISIONS.md).
pub fn linguastel_unguarded_call(lent: &mut HostRecord, call: HostCall) -> HostAnswer
    ensures { Called lent.old call lent.new result }
{
    let state = host_record::state_of(*lent);
    let decision = host_record::judge(state, call);
    let changes = decide::changes(decision);
    if changes {
        let stepped = kernel::apply(state, decision);
        *lent = host_record::stored(*lent, stepped, decision);
        return HostAnswer::from(stepped.answer);
    }
    host_record::said(decision)
}

// Which tasks wait, and which can run. It only reads the record, and is right of whatever record is lent.
pub fn linguastel_unguarded_task_sets(lent: &HostRecord) -> TaskSets
    ensures { SetsOf lent.now result }
{
    host_record::task_sets(lent)
}
