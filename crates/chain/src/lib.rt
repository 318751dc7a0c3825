// Chains of numbers: tasks that wait and messages that are queued (document 01: chains serve data queues and mailboxes alike).
// One table of cells holds all chains of one kind of numbers; specs/Table.antt says which lists they are. A caller names numbers
// and chains, never a cell, and every promise is about the lists. The tests of a table are in the crate chain_test.
//
// A table for more chains needs a larger CELLS, here and in specs/Table.antt, and no other code or proof.
#![tactic(auto)]

ghost use Rattle.std.specs.Prelude.{◌≡◌, ◌<◌, length, get_or, set};
ghost use mathlib.Core.List.{[], head_d};
ghost use Rattle.chain.specs.Table.{key_cells, lists, chain_of, Sound};
ghost use Rattle.chain.specs.Walks.{Walk, Passes, Sought, Found};
ghost use Rattle.chain.specs.Changes.{New, HasChain, Changed, Insertable, Inserted, Popped, Removed, StandsIn};

// Cell 0, then 32 tasks and 48 chains, or 64 messages and 16 chains.
pub const CELLS: usize = 81;

// Cell 0, which is no number's, then up to 64 numbers.
pub const KEY_CELLS: usize = 65;

// A limit that passes every key: a newcomer with it goes behind all.
pub const EVERY_KEY: u8 = 255;

// How many numbers and chains a table has: the numbers 1 to `numbers` and the chains 1 to `chains`, at most 255. Whoever holds tables of one size has a
// constant for it. It is no const parameter of `Chains`, since a record that C lends can't lead to a type with parameters.
#[derive(Clone, Copy)]
pub struct Size {
    pub numbers: usize,
    pub chains: usize,
}

// A table of chains, with a key for each number: a task's priority, or the priority kept with a message. Callers look at none of its cells.
#[repr(C)]
#[derive(Clone, Copy)]
pub struct Chains {
    pub link: [u8; CELLS],
    pub key: [u8; KEY_CELLS],
}

// Where a walk stops: a cell, and how many numbers it has passed.
#[derive(Clone, Copy)]
struct Spot {
    at: usize,
    place: usize,
}

// Whether a newcomer with this limit goes behind a number with this key.
fn passes(key: u8, limit: u8) -> bool
    ensures { Passes key limit result }
{
    key <= limit
}

impl Chains {
    // A table whose chains are all empty.
    pub fn new() -> Chains
        ensures { New result.link result.key }
    {
        Chains {
            link: [0; CELLS],
            key: [0; KEY_CELLS],
        }
    }

    // Walks past the numbers whose keys the limit passes. Each next cell is read from the table, so no range counts the steps (in `find` too).
    fn seek(&self, numbers: usize, head: usize, limit: u8) -> Spot
        requires { Walk numbers head self.now.link }
        ensures { Sought numbers head limit self.now.link self.now.key result.at result.place }
    {
        let mut at = head;
        let mut place: usize = 0;
        let mut next = self.link[at] as usize;
        while next != 0 {
            if !passes(self.key[next], limit) {
                return Spot { at, place };
            }
            at = next;
            place += 1;
            next = self.link[at] as usize;
        }
        Spot { at, place }
    }

    // Walks to the cell ahead of a number, or to the last cell where the chain doesn't have the number.
    fn find(&self, numbers: usize, head: usize, number: u8) -> Spot
        requires { Walk numbers head self.now.link }
        ensures { Found numbers head number self.now.link result.at result.place }
    {
        let mut at = head;
        let mut place: usize = 0;
        let mut next = self.link[at];
        while next != 0 {
            if next == number {
                return Spot { at, place };
            }
            at = next as usize;
            place += 1;
            next = self.link[at];
        }
        Spot { at, place }
    }

    // The key of a number.
    pub fn key(&self, number: usize) -> u8
        requires { number < key_cells }
        ensures { result ≡ get_or self.now.key number 0 }
    {
        self.key[number]
    }

    // Gives a number another key. It is called where the number stands in no chain, or in one that doesn't go by keys.
    pub fn set_key(&mut self, number: usize, key: u8)
        requires { number < key_cells }
        ensures { self.new ≡ record { link = self.old.link; key = set self.old.key number key } }
    {
        self.key[number] = key;
    }

    // Puts a number that stands in no chain into a chain, behind those at its head whose key is at most the limit. Returns how many
    // are ahead of it.
    pub fn insert(&mut self, size: Size, chain: usize, number: u8, limit: u8) -> usize
        requires { Insertable size.numbers size.chains chain number self.old.link self.old.key }
        ensures inserted { Inserted size.numbers size.chains chain number limit self.old.link self.old.key self.new.link result }
        ensures keys { self.new.key ≡ self.old.key }
    {
        let head = size.numbers + chain;
        let spot = self.seek(size.numbers, head, limit);
        let at = spot.at;
        let x = number as usize;
        self.link[x] = self.link[at];
        self.link[at] = number;
        spot.place
    }

    // Takes the first number out of a chain; 0 where there is none.
    pub fn pop(&mut self, size: Size, chain: usize) -> u8
        requires { HasChain size.numbers size.chains chain self.old.link }
        ensures popped { Popped size.numbers size.chains chain self.old.link self.new.link result }
        ensures keys { self.new.key ≡ self.old.key }
    {
        let head = size.numbers + chain;
        let first = self.link[head];
        if first != 0 {
            let x = first as usize;
            self.link[head] = self.link[x];
        }
        first
    }

    // Takes a number out of its chain. Returns how many were ahead of it.
    pub fn remove(&mut self, size: Size, chain: usize, number: u8) -> usize
        requires { HasChain size.numbers size.chains chain self.old.link × (chain_of number (lists size.numbers size.chains self.old.link) ≡ chain) }
        ensures removed { Removed size.numbers size.chains chain number self.old.link self.new.link result }
        ensures keys { self.new.key ≡ self.old.key }
    {
        let head = size.numbers + chain;
        let found = self.find(size.numbers, head, number);
        let at = found.at;
        let x = number as usize;
        self.link[at] = self.link[x];
        found.place
    }

    // Takes all numbers out of a chain.
    pub fn clear(&mut self, size: Size, chain: usize)
        requires { HasChain size.numbers size.chains chain self.old.link }
        ensures cleared { Changed size.numbers size.chains chain self.old.link self.new.link [] }
        ensures keys { self.new.key ≡ self.old.key }
    {
        let head = size.numbers + chain;
        self.link[head] = 0;
    }

    // The first number of a chain; 0 where there is none.
    pub fn first(&self, size: Size, chain: usize) -> u8
        requires { HasChain size.numbers size.chains chain self.now.link }
        ensures { result ≡ head_d (get_or (lists size.numbers size.chains self.now.link) chain []) 0 }
    {
        self.link[size.numbers + chain]
    }

    // Which chain a number stands in; 0 where it stands in none.
    pub fn chain_of(&self, size: Size, number: u8) -> usize
        requires { Sound size.numbers size.chains self.now.link × (0 < number) }
        ensures { StandsIn size.numbers size.chains number self.now.link result }
    {
        for chain in 1..=size.chains {
            let spot = self.find(size.numbers, size.numbers + chain, number);
            let at = spot.at;
            if self.link[at] == number {
                return chain;
            }
        }
        0
    }
}
