// What hosts in C or Rust link: the functions of crate linguastel under their C names. hosts/library makes the archive.
#![tactic(auto)]

ghost use Rattle.std.specs.Prelude.{◌≡◌};
ghost use Rattle.model.specs.Rows.{empty_state};
ghost use Rattle.host_record.specs.Record.{HostSound, meaning};
ghost use Rattle.host_calls.specs.Version.{version};
ghost use Rattle.linguastel.specs.Called.{Called};
ghost use Rattle.host_record.specs.Layout.{record_size, record_align};
ghost use Rattle.host_record.specs.Sets.{SetsOf};

use host_calls::{HostAnswer, HostCall};
use host_record::{HostRecord, TaskSets};

#[unsafe(no_mangle)]
pub extern "C" fn linguastel_version() -> u32
    ensures { result ≡ version }
{
    linguastel::linguastel_version()
}

#[unsafe(no_mangle)]
pub extern "C" fn linguastel_record_size() -> usize
    ensures { result ≡ record_size }
{
    linguastel::linguastel_record_size()
}

#[unsafe(no_mangle)]
pub extern "C" fn linguastel_record_align() -> usize
    ensures { result ≡ record_align }
{
    linguastel::linguastel_record_align()
}

#[unsafe(no_mangle)]
pub extern "C" fn linguastel_unguarded_empty(lent: &mut HostRecord)
    ensures { HostSound lent.new × (meaning lent.new ≡ empty_state 0) }
{
    linguastel::linguastel_unguarded_empty(lent)
}

#[unsafe(no_mangle)]
pub extern "C" fn linguastel_unguarded_call(lent: &mut HostRecord, call: HostCall) -> HostAnswer
    ensures { Called lent.old call lent.new result }
{
    linguastel::linguastel_unguarded_call(lent, call)
}

#[unsafe(no_mangle)]
pub extern "C" fn linguastel_unguarded_task_sets(lent: &HostRecord) -> TaskSets
    ensures { SetsOf lent.now result }
{
    linguastel::linguastel_unguarded_task_sets(lent)
}
