//! Entries over one lent record.
ghost use Rattle.std.specs.Prelude.{◌≡◌, None};
ghost use Rattle.thin.specs.Entered.{EnteredBlock, EnteredJudged};

/// What a step leaves, and what it answers.
#[derive(Clone, Copy)]
pub struct Stepped<S, N> {
    pub state: S,
    pub answer: N,
}

/// Fills what is lent, whatever was there.
pub fn fill<T: Copy, F: Fn() -> T>(make: F, lent: &mut T)
    requires { F.pre make }
    ensures { F.post make lent.new }
{
    *lent = make();
}

/// Only reads what is lent.
pub fn read<T: Copy, N, F: Fn(T) -> N>(look: F, lent: &T) -> N
    requires { F.pre look lent.now }
    ensures { F.post look lent.now result }
{
    look(*lent)
}

/// Always stores what the step leaves.
pub fn enter<T: Copy, D, N, F: Fn(T, D) -> Stepped<T, N>>(step: F, lent: &mut T, handed: D) -> N
    requires { F.pre step lent.old handed }
    ensures { F.post step lent.old handed (record { state = lent.new; answer = result }) }
{
    let stepped = step(*lent, handed);
    *lent = stepped.state;
    stepped.answer
}

/// Is handed a block of bytes, and stores only where it is taken: else there is a code alone.
pub fn enter_block<T: Copy, R, F: Fn(T, &[u8]) -> Result<Stepped<T, R>, R>>(
    take: F,
    lent: &mut T,
    block: &[u8],
) -> R
    requires { F.pre take lent.old block }
    ensures { EnteredBlock (F.post take lent.old block.entry) lent.old lent.new result }
{
    match take(*lent, block) {
        Ok(taken) => {
            *lent = taken.state;
            taken.answer
        }
        Err(code) => code,
    }
}

/// Judges first, and stores only where something changes: `say` answers where nothing does.
pub fn enter_judged<
    T: Copy,
    S: Copy,
    D,
    J: Copy,
    Y: Copy,
    N,
    Read: Fn(T) -> S,
    Judge: Fn(S, D) -> J,
    Say: Fn(J) -> Option<N>,
    Apply: Fn(S, J) -> Y,
    Store: Fn(T, Y, J) -> T,
    Answer: Fn(Y) -> N,
>(
    read: Read,
    judge: Judge,
    say: Say,
    apply: Apply,
    store: Store,
    answer: Answer,
    lent: &mut T,
    handed: D,
) -> N
    requires reads { Read.pre read lent.old }
    requires judges { (s : S) → Read.post read lent.old s → Judge.pre judge s handed }
    requires says { Say.IsAlwaysCallable say }
    requires applies { (s : S) (j : J) → Read.post read lent.old s
        → Judge.post judge s handed j → Say.post say j None → Apply.pre apply s j }
    requires stores { Store.IsAlwaysCallable store }
    requires answers { Answer.IsAlwaysCallable answer }
    ensures { EnteredJudged (Read.post read) (Judge.post judge) (Say.post say) (Apply.post apply) (Store.post store) (Answer.post answer)
        lent.old handed lent.new result }
{
    let state = read(*lent);
    let judgement = judge(state, handed);
    if let Some(said) = say(judgement) {
        return said;
    }
    let stepped = apply(state, judgement);
    *lent = store(*lent, stepped, judgement);
    answer(stepped)
}
