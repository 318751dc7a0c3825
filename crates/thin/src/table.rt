//! An entry over a lent record and two lent tables.
ghost use Rattle.std.specs.Prelude.{◌≡◌, ◌≤◌, None, Ok, length};
ghost use Rattle.thin.specs.Turns.{OneTurn, Begins, ComesTo, EnteredTable};

use crate::record::Stepped;

/// Walks over a table of calls, and writes each one's answer into its cell. Where the test refuses the tables nothing is written.
pub fn enter_table<
    T: Copy,
    S: Copy,
    D: Copy,
    J: Copy,
    A: Copy,
    N: Copy,
    C: Copy,
    R: Copy,
    Read: Fn(T) -> S,
    Test: Fn(S, usize, usize) -> Result<C, R>,
    Judge: Fn(S, D) -> J,
    Say: Fn(J) -> Option<N>,
    Apply: Fn(S, J) -> Stepped<S, A>,
    Tell: Fn(Stepped<S, A>) -> N,
    Store: Fn(T, S) -> T,
>(
    read: Read,
    test: Test,
    judge: Judge,
    say: Say,
    apply: Apply,
    tell: Tell,
    store: Store,
    lent: &mut T,
    calls: &[D],
    answers: &mut [N],
) -> Result<C, R>
    requires reads { Read.pre read lent.old }
    requires tests { (s : S) → Read.post read lent.old s → Test.pre test s (length calls.now) (length answers.old) }
    requires fits { (s : S) (code : C) → Begins (Read.post read) (Test.post test) lent.old calls.now answers.old s code
        → length calls.now ≤ length answers.old }
    requires judges { (s : S) (call : D) → ComesTo (Read.post read) (Test.post test) lent.old calls.now answers.old
        (OneTurn (Judge.post judge) (Say.post say) (Apply.post apply) (Tell.post tell)) s call → Judge.pre judge s call }
    requires says { Say.IsAlwaysCallable say }
    requires applies { (s : S) (call : D) (j : J) → ComesTo (Read.post read) (Test.post test) lent.old calls.now answers.old
        (OneTurn (Judge.post judge) (Say.post say) (Apply.post apply) (Tell.post tell)) s call → Judge.post judge s call j
        → Say.post say j None → Apply.pre apply s j }
    requires tells { Tell.IsAlwaysCallable tell }
    requires stores { Store.IsAlwaysCallable store }
    ensures { EnteredTable (Read.post read) (Test.post test) lent.old calls.now answers.old
        (OneTurn (Judge.post judge) (Say.post say) (Apply.post apply) (Tell.post tell))
        (Store.post store) lent.new answers.new result }
{
    let mut state = read(*lent);
    let code = test(state, calls.len(), answers.len())?;
    for i in 0..calls.len() {
        let judgement = judge(state, calls[i]);
        answers[i] = match say(judgement) {
            Some(answer) => answer,
            None => {
                let stepped = apply(state, judgement);
                state = stepped.state;
                tell(stepped)
            }
        };
    }
    *lent = store(*lent, state);
    Ok(code)
}
