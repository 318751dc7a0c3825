// The tests whether a data queue and a mailbox are sound, which is document 01's word ("A sound record"): exact whatever their records hold, once
// the chains are sound.
#![tactic(auto)]

ghost use Rattle.std.specs.Prelude.{[], T, get_or};
ghost use Rattle.lists.specs.Lists.{InOrder};
ghost use Rattle.lists.specs.Tests.{Whether};
ghost use Rattle.chain.specs.Table.{lists, keys_of};
ghost use Rattle.chain.specs.Changes.{HasChain};
ghost use Rattle.parts.specs.Queues.{MayWait, QueueTestable, QueueSound};
ghost use Rattle.parts.specs.Mailboxes.{MailboxNumbersSound, MailboxTestable, MailboxSound};

use chain::{Chains, Size};
use model::PRIORITY_LIMIT;
use parts::{MESSAGE_TABLE, Mailbox, Queue, RECEIVERS, TASK_TABLE, WAITERS};

// A task with this priority comes after all others.
const LOWEST: u8 = PRIORITY_LIMIT;

// Whether a chain, where that is wanted, is in order with keys from 1 to `most`.
fn in_order_if(table: &Chains, size: Size, chain: usize, wanted: bool, most: u8) -> bool
    requires { HasChain size.numbers size.chains chain table.now.link }
    ensures { Whether (T wanted → InOrder 1 most (keys_of table.now.key (get_or (lists size.numbers size.chains table.now.link) chain []))) result }
{
    if wanted {
        return chain_test::in_order(table, size, chain, 1, most);
    }
    true
}

// Whether those that wait at a data queue may do so. Its head sender and head receiver are 0 for none.
fn may_wait(count: u8, capacity: u8, sender: u8, receiver: u8) -> bool
    ensures { Whether (MayWait count capacity sender receiver) result }
{
    if sender != 0 {
        return (count == capacity) & (receiver == 0);
    }
    (receiver == 0) | (count == 0)
}

// Whether the data queue of this number is sound, with those that wait at it. The table of waiting tasks is sound.
pub fn queue_sound(queue: Queue, waiting: &Chains, number: usize) -> bool
    requires { QueueTestable number waiting.now.link waiting.now.key }
    ensures { Whether (QueueSound queue waiting.now.link waiting.now.key number) result }
{
    let sender = waiting.first(TASK_TABLE, number);
    let receiver = waiting.first(TASK_TABLE, RECEIVERS + number);
    let attribute = queue.attribute;
    let count = queue.ring.length();
    if queue.defined == 1 {
        if !((attribute <= 1) & queue.ring.in_range()) {
            return false;
        }
        if !may_wait(count, queue.ring.capacity(), sender, receiver) {
            return false;
        }
        return in_order_if(waiting, TASK_TABLE, number, attribute == 1, LOWEST);
    }
    (queue.defined == 0) & (count == 0) & (sender == 0) & (receiver == 0)
}

// Whether a mailbox's numbers are in range.
fn mailbox_numbers_sound(attribute: u8, highest: u8) -> bool
    ensures { Whether (MailboxNumbersSound attribute highest) result }
{
    if attribute < 2 {
        return true;
    }
    (attribute <= 3) & (1 <= highest) & (highest <= PRIORITY_LIMIT)
}

// Whether the mailbox of this number is sound, with those that wait at it and its messages. Both tables are sound.
pub fn mailbox_sound(mailbox: Mailbox, waiting: &Chains, messages: &Chains, number: usize) -> bool
    requires { MailboxTestable number waiting.now.link waiting.now.key messages.now.link messages.now.key }
    ensures { Whether (MailboxSound mailbox waiting.now.link waiting.now.key messages.now.link messages.now.key number) result }
{
    let waiters = WAITERS + number;
    let waiter = waiting.first(TASK_TABLE, waiters);
    let message = messages.first(MESSAGE_TABLE, number);
    let attribute = mailbox.attribute;
    let highest = mailbox.highest;
    if mailbox.defined == 1 {
        if !mailbox_numbers_sound(attribute, highest) {
            return false;
        }
        if !((waiter == 0) | (message == 0)) {
            return false;
        }
        let by_priority = parts::ranks_waiters(attribute);
        if !in_order_if(waiting, TASK_TABLE, waiters, by_priority, LOWEST) {
            return false;
        }
        let ranked = parts::ranks_messages(attribute);
        return in_order_if(messages, MESSAGE_TABLE, number, ranked, highest);
    }
    (mailbox.defined == 0) & (waiter == 0) & (message == 0)
}
