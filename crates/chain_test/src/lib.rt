// Tests of a table of chains, each exact: whether the keys of a chain are in order, for a sound table, and whether a table is sound, whatever its
// cells hold. "Sound" is document 01's word ("A sound record").
#![tactic(auto)]

ghost use Rattle.std.specs.Prelude.{◌≡◌, [], ◌≤◌, get_or, replicate};
ghost use Rattle.lists.specs.Lists.{InOrder};
ghost use Rattle.lists.specs.Tests.{Whether};
ghost use Rattle.chain.specs.Table.{key_cells, follow, lists, keys_of, Room};
ghost use Rattle.chain.specs.Walks.{Walk, Marking, MarkTested, FourEmpty};
ghost use Rattle.chain.specs.Changes.{HasChain, Tested};

use chain::{Chains, KEY_CELLS, Size};

// Whether the keys behind a cell lie between `least` and `most`, with none smaller than the one before it.
fn in_order_from(table: &Chains, numbers: usize, cell: usize, least: u8, most: u8) -> bool
    requires { Walk numbers cell table.now.link }
    ensures { Whether (InOrder least most (keys_of table.now.key (follow numbers table.now.link cell))) result }
{
    let next = table.link[cell] as usize;
    if next == 0 {
        return true;
    }
    let next_key = table.key[next];
    if next_key < least {
        return false;
    }
    if most < next_key {
        return false;
    }
    in_order_from(table, numbers, next, next_key, most)
}

// Whether the keys of a chain lie between `least` and `most`, with none smaller than the one before it.
pub fn in_order(table: &Chains, size: Size, chain: usize, least: u8, most: u8) -> bool
    requires { HasChain size.numbers size.chains chain table.now.link }
    ensures { Whether (InOrder least most (keys_of table.now.key (get_or (lists size.numbers size.chains table.now.link) chain []))) result }
{
    let numbers = size.numbers;
    in_order_from(table, numbers, numbers + chain, least, most)
}

// Follows the chain behind a cell for at most `left` numbers and marks each. False where the chain is longer, or meets a number
// that isn't the table's or is marked already.
fn mark(
    table: &Chains,
    marks: &mut [u8; KEY_CELLS],
    numbers: usize,
    cell: usize,
    chain: u8,
    left: usize,
) -> bool
    requires { Marking numbers cell chain table.now.link marks.old }
    ensures { MarkTested numbers cell chain left table.now.link marks.old marks.new result }
{
    let next = table.link[cell] as usize;
    if next == 0 {
        return true;
    }
    if left == 0 {
        return false;
    }
    if numbers < next {
        return false;
    }
    if marks[next] != 0 {
        return false;
    }
    marks[next] = chain;
    mark(table, marks, numbers, next, chain, left - 1)
}

// Whether this chain and the three after it are chains of the table, all of them empty. Most chains of a table are empty, and the
// compiler tests four heads at once.
fn four_empty(table: &Chains, size: Size, chain: usize) -> bool
    requires { Room size.numbers size.chains table.now.link × (chain ≤ size.chains) }
    ensures { Whether (FourEmpty size.numbers size.chains chain table.now.link) result }
{
    if size.chains < chain + 3 {
        return false;
    }
    let link = &table.link;
    let head = size.numbers + chain;
    (link[head] == 0) & (link[head + 1] == 0) & (link[head + 2] == 0) & (link[head + 3] == 0)
}

// Whether a table is sound, whatever its cells hold. `standing`, lent with zeros, then has for each number the chain that it
// stands in. Where the table isn't sound it has zeros again.
pub fn sound(table: &Chains, size: Size, standing: &mut [u8; KEY_CELLS]) -> bool
    requires { Room size.numbers size.chains table.now.link × (standing.old ≡ replicate key_cells 0) }
    ensures { Tested size.numbers size.chains table.now.link standing.new result }
{
    let numbers = size.numbers;
    let chains = size.chains;
    // A while: a step passes one chain or four, which no range says.
    let mut chain: usize = 1;
    while chain <= chains {
        if four_empty(table, size, chain) {
            chain += 4;
        } else {
            if !mark(
                table,
                standing,
                numbers,
                numbers + chain,
                chain as u8,
                numbers,
            ) {
                *standing = [0; KEY_CELLS];
                return false;
            }
            chain += 1;
        }
    }
    true
}
