// A call and its answer in numbers alone, as hosts in other languages give and get them.
#![tactic(auto)]

ghost use Rattle.std.specs.Prelude.{◌≡◌};
ghost use Rattle.model.specs.Codes.{number};
ghost use Rattle.host_calls.specs.Calls.{byte, call_of, answer_of};

use model::{Answer, Call, Code, Outcome};

// The version of what hosts get, which they compare with that of their header: specs/Version.antt says when it changes.
pub const VERSION: u32 = 1500;

// A call with its context. Its numbers are wide, so that none that is too large, or negative, is cut down to a task's or an object's.
#[repr(C)]
#[derive(Clone, Copy)]
pub struct HostCall {
    pub number: u32,
    pub caller: u32,
    // 0 for no; every other number is yes.
    pub locked: u32,
    pub disabled: u32,
    pub object: u32,
    pub value: u32,
    pub tmout: i32,
    pub attribute: u32,
}

// An answer in document 01's numbers.
#[repr(C)]
#[derive(Clone, Copy)]
pub struct HostAnswer {
    // 0 finished, 1 waits.
    pub kind: u32,
    // Of a finished answer; else 1, which is no code.
    pub code: i32,
    // Of one that waits; else 0.
    pub place: u32,
    pub a: u32,
    pub b: u32,
    pub c: u32,
}

// A number as a byte; 255 for all that are larger. No call, task or object has that number.
#[tactic(auto, unfolding(crate::specs::Calls::byte))]
fn byte(number: u32) -> u8
    ensures { result ≡ byte number }
{
    u8::try_from(number).unwrap_or(u8::MAX)
}

// What a host's numbers mean.
impl From<HostCall> for Call {
    ghost from_gives = { λ call result. result ≡ call_of call };

    #[tactic(auto, unfolding(crate::specs::Calls::call_of))]
    fn from(call: HostCall) -> Call {
        Call {
            number: byte(call.number),
            caller: byte(call.caller),
            locked: call.locked != 0,
            disabled: call.disabled != 0,
            object: byte(call.object),
            value: call.value,
            tmout: call.tmout,
            attribute: call.attribute,
        }
    }
}

// No `impl From<Code> for i32`: only crate model, which has `Code`, could hold it.
pub fn number_of(code: Code) -> i32
    ensures { result ≡ number code }
{
    match code {
        Code::Ok => 0,
        Code::Sys => -5,
        Code::Par => -17,
        Code::Id => -18,
        Code::Ctx => -25,
        Code::Iluse => -28,
        Code::Obj => -41,
        Code::Noexs => -42,
        Code::Qovr => -43,
        Code::Rlwai => -49,
        Code::Tmout => -50,
        Code::Dlt => -51,
    }
}

impl From<Answer> for HostAnswer {
    ghost from_gives = { λ answer result. result ≡ answer_of answer };

    #[tactic(auto, unfolding(crate::specs::Calls::answer_of))]
    fn from(answer: Answer) -> HostAnswer {
        let (kind, code, place) = match answer.outcome {
            Outcome::Finished(code) => (0, number_of(code), 0),
            Outcome::Waits(place) => (1, 1, place),
        };
        HostAnswer {
            kind,
            code,
            place,
            a: answer.a,
            b: answer.b,
            c: answer.c,
        }
    }
}
