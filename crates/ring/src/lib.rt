// A store of words, as a ring (document 01: each queue's control record holds its own ring of 16 words). Every method is promised on the
// list of stored words, oldest first.
#![tactic(auto)]

ghost use Rattle.std.specs.Prelude.{◌≡◌, ◌<◌, ◌≤◌, length};
ghost use Rattle.lists.specs.Tests.{Whether};
ghost use Rattle.ring.specs.Ring.{places, further, stored, InRange, NoWordStored, Pushed, OldestPopped, Replaced};

// The places of a ring, as a byte like places and counts, and as a length.
const PLACE_LIMIT: u8 = 16;

pub const PLACES: usize = PLACE_LIMIT as usize;

#[repr(C)]
#[derive(Clone, Copy)]
pub struct Ring {
    pub words: [u32; PLACES],
    pub head: u8,
    pub count: u8,
    pub capacity: u8,
    // Says nothing. It has a name so that no byte of a record that a host lends is left to chance; a new ring has 0 here.
    pub spare: u8,
}

// ── Places, found without a division (document 02, item 4) ──

// The place after this one, in a ring of so many places. The first comes after the last.
fn next_place(place: u8, size: u8) -> u8
    requires { place < size }
    ensures { result ≡ further size place 1 }
{
    let last = size - 1;
    if place < last {
        return place + 1;
    }
    0
}

// The place n steps after this one, at most one round on. Place and n are added only where the sum is below the size, so no size is too large for its type.
fn place_further(place: u8, n: u8, size: u8) -> u8
    requires { (place < size) × (n ≤ size) }
    ensures { result ≡ further size place n }
{
    let to_end = size - place;
    if n < to_end {
        return place + n;
    }
    n - to_end
}

// ── A ring ──

impl Ring {
    // An empty ring.
    pub fn new(capacity: u8) -> Ring
        requires { capacity ≤ places }
        ensures { NoWordStored capacity result }
    {
        Ring {
            words: [0; PLACES],
            head: 0,
            count: 0,
            capacity,
            spare: 0,
        }
    }

    // Whether the ring's numbers are in range.
    pub fn in_range(&self) -> bool
        ensures { Whether (InRange self.now) result }
    {
        (self.head < PLACE_LIMIT) & (self.count <= self.capacity) & (self.capacity <= PLACE_LIMIT)
    }

    // How many words are stored.
    pub fn length(&self) -> u8
        ensures { result ≡ length (stored self.now) }
    {
        self.count
    }

    // How many words may be stored.
    pub fn capacity(&self) -> u8
        ensures { result ≡ self.now.capacity }
    {
        self.capacity
    }

    // Stores a word behind the newest. There is room for it.
    pub fn push(&mut self, word: u32)
        requires { InRange self.old × (length (stored self.old) < self.old.capacity) }
        ensures { Pushed self.old word self.new }
    {
        let count = self.count;
        let at = place_further(self.head, count, PLACE_LIMIT) as usize;
        self.words[at] = word;
        self.count = count + 1;
    }

    // Takes the oldest word out. There is one.
    pub fn pop(&mut self) -> u32
        requires { InRange self.old × (0 < length (stored self.old)) }
        ensures { OldestPopped self.old result self.new }
    {
        let head = self.head;
        let at = head as usize;
        let word = self.words[at];
        self.head = next_place(head, PLACE_LIMIT);
        self.count -= 1;
        word
    }

    // Drops the oldest word and stores another behind the newest. There is one to drop.
    pub fn drop_oldest_and_push(&mut self, word: u32)
        requires { InRange self.old × (0 < length (stored self.old)) }
        ensures { Replaced self.old word self.new }
    {
        let _oldest = self.pop();
        self.push(word);
    }
}
