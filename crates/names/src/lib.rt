// Document 01, "The calls, by number", the column "Names": what a call names, by its number.
#![tactic(auto)]

ghost use Rattle.std.specs.Prelude.{◌≡◌};
ghost use Rattle.model.specs.Sizes as sizes;
ghost use Rattle.model.specs.Calls as calls;

use model::Call;

// A number from low to high.
pub fn within(low: u32, high: u32, n: u32) -> bool
    ensures { result ≡ sizes.within low high n }
{
    (low..=high).contains(&n)
}

#[tactic(auto, unfolding(lists::specs::Lists::one_of))]
pub fn names_task(call: Call) -> bool
    ensures { result ≡ calls.names_task call }
{
    matches!(call.number, 1 | 19..=23)
}

pub fn names_queue(call: Call) -> bool
    ensures { result ≡ calls.names_queue call }
{
    matches!(call.number, 2..=11)
}

pub fn names_mailbox(call: Call) -> bool
    ensures { result ≡ calls.names_mailbox call }
{
    matches!(call.number, 12..=18)
}

pub fn names_message(call: Call) -> bool
    ensures { result ≡ calls.names_message call }
{
    call.number == 14
}

// The numbers that a call names, 0 where it names none of that kind.
// No enum of kinds in place of a function for each: each has its own definition in crate model, and a message's number stands in another field.
pub fn task_named(call: Call) -> u8
    ensures { result ≡ calls.task_named call }
{
    if names_task(call) { call.object } else { 0 }
}

pub fn queue_named(call: Call) -> u8
    ensures { result ≡ calls.queue_named call }
{
    if names_queue(call) { call.object } else { 0 }
}

pub fn mailbox_named(call: Call) -> u8
    ensures { result ≡ calls.mailbox_named call }
{
    if names_mailbox(call) { call.object } else { 0 }
}

pub fn message_named(call: Call) -> u32
    ensures { result ≡ calls.message_named call }
{
    if names_message(call) { call.value } else { 0 }
}
