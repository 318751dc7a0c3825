// A table of calls (document 02, item 2): what the walk over the two lent tables does on its way, by value. The record is tested once a table: each call
// leaves a sound record sound, so it is judged behind the test. Crate table_entry has the walk.
#![tactic(auto)]

ghost use Rattle.std.specs.Prelude.{◌≡◌};
ghost use Rattle.model.specs.Tables.{in_table};
ghost use Rattle.record.specs.Sound.{Sound};
ghost use Rattle.kernel.specs.Steps.{Judged};
ghost use Rattle.tables.specs.Tested.{Tested};

use decide::Decision;
use model::{CALL_LIMIT, Call, Code, TABLE_LIMIT};
use record::State;

// Whether the calls of a table are made, and else its code. The state first, then how many calls and answer cells there are.
pub fn test(state: State, calls: usize, cells: usize) -> Result<(), Code>
    ensures { Tested state calls cells result }
{
    if !see::sound(&state) {
        return Err(Code::Sys);
    }
    let outside = (TABLE_LIMIT < calls) | (cells < calls);
    if outside {
        return Err(Code::Par);
    }
    Ok(())
}

// A record of number 0 is no tick here: it is read as a call of unknown number.
fn in_table(call: Call) -> Call
    ensures { result ≡ in_table call }
{
    if call.number == 0 {
        return Call {
            number: CALL_LIMIT + 1,
            ..call
        };
    }
    call
}

// What a record of the table comes to on a sound state.
pub fn judge(state: State, call: Call) -> Decision
    requires { Sound state }
    ensures { Judged state (in_table call) result }
{
    kernel::judge_sound(state, in_table(call))
}
