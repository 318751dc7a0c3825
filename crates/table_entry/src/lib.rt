// The table of calls (document 02, item 2) on a lent record: the two tables are lent, the record is changed where it stands. Document 01's form by place: a
// walk over a slice of call structs, one call after the other.
#![tactic(auto)]

ghost use Rattle.table_entry.specs.TableEntered.{TableEntered};

use model::{Answer, Call, Code};
use record::State;

// The state is copied before the first call and stored after the last one. An answer is written after the state is taken over: the other way round the compiler
// copies the state once more (docs/DECISIONS.md). It answers a code and no `Result`: `TableEntered` speaks of the code that document 02 gives a table.
pub fn enter_table(lent: &mut State, calls: &[Call], answers: &mut [Answer]) -> Code
    ensures { TableEntered lent.old calls.now answers.old lent.new answers.new result }
{
    let mut state = *lent;
    if let Err(code) = tables::test(state, calls.len(), answers.len()) {
        return code;
    }
    // Crate thin has this walk over any types: by its seven closures it is no plainer.
    for (i, call) in calls.iter().enumerate() {
        let decision = tables::judge(state, *call);
        let changes = decide::changes(decision);
        answers[i] = if changes {
            let stepped = kernel::apply(state, decision);
            state = stepped.state;
            stepped.answer
        } else {
            decide::said(decision)
        };
    }
    *lent = state;
    Code::Ok
}
