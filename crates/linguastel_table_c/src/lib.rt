// What hosts in C or Rust link: the functions of crate linguastel_table under their C names. hosts/library makes the archive.
#![tactic(auto)]

ghost use Rattle.std.specs.Prelude.{◌≡◌};
ghost use Rattle.host_calls.specs.Version.{version};
ghost use Rattle.linguastel_table.specs.TableCalled.{TableCalled};

use host_calls::{HostAnswer, HostCall};
use host_record::HostRecord;

#[unsafe(no_mangle)]
pub extern "C" fn linguastel_table_version() -> u32
    ensures { result ≡ version }
{
    linguastel_table::linguastel_table_version()
}

#[unsafe(no_mangle)]
pub extern "C" fn linguastel_unguarded_table(
    lent: &mut HostRecord,
    calls: &[HostCall],
    answers: &mut [HostAnswer],
) -> i32
    ensures { TableCalled lent.old calls.now answers.old lent.new answers.new result }
{
    linguastel_table::linguastel_unguarded_table(lent, calls, answers)
}
