// The ordered table over lent slots: keys that rise, each with its number, none of them 0.
ghost use Rattle.std.specs.Prelude.{◌≤◌, length, option_map, option_copied};
ghost use Rattle.algebra.specs.Rows.{Sorted, Nonzero, Bounded};
ghost use Rattle.store.specs.Terms.{term, terms};
ghost use Rattle.store.specs.Answers.{Handed};

use crate::key::Key;
use crate::slot::{Full, Slot};
use std::cmp::Ordering;

// The slots are lent, with no heap to hold a Vec: the first `len` of them hold the contents.
#[derive(Drop)]
pub struct Table<'a, K: Key> {
    slots: &'a mut [Slot<K>],
    len: usize,
    ghost within: { len ≤ length slots.now },
    ghost sorted: { Sorted (terms K.number slots.now len) },
    ghost nonzero: { Nonzero (terms K.number slots.now len) },
    ghost bounded: { Bounded (terms K.number slots.now len) },
}

impl<'a, K: Key> Table<'a, K> {
    ghost use Rattle.std.specs.Prelude.{◌≡◌, []};
    ghost use Rattle.store.specs.Tables.{contents, room};

    // An empty table over lent slots, whatever they held.
    pub fn new(slots: &'a mut [Slot<K>]) -> Table<'a, K>
        ensures empty { contents result ≡ [] }
        ensures room { room result ≡ length slots.old }
    {
        Table { slots, len: 0 }
    }
}

impl<K: Key> Table<'_, K> {
    ghost use Rattle.std.specs.Prelude.{◌≡◌, ◌<◌, false, [], take, is_ok, MatchResult};
    ghost use Rattle.std.specs.List.{insert, remove};
    ghost use Rattle.algebra.specs.Poly.{at, lowest as lowest_of, highest as highest_of};
    ghost use Rattle.algebra.specs.Rows.{StandsAt, FallsAt};
    ghost use Rattle.store.specs.Answers.{Handed, Wrote};
    ghost use Rattle.store.specs.Stores.{at_most, fits};
    ghost use Rattle.store.specs.Tables.{contents, room};

    // How many keys stand.
    pub fn count(&self) -> usize
        ensures { result ≡ length (contents self.now) }
    {
        self.standing().len()
    }

    // The slots of the keys that stand.
    fn standing(&self) -> &[Slot<K>]
        ensures { result.now ≡ take self.now.len self.now.slots.now }
    {
        &self.slots[..self.len]
    }

    // Where the key stands, or else where it would. By hand, since the library's search halves down to one slot even where it meets the key.
    fn find(&self, key: &K) -> Result<usize, usize>
        ensures { MatchResult result (StandsAt (contents self.now) (K.number key.now)) (FallsAt (contents self.now) (K.number key.now)) }
    {
        let slots = self.standing();
        let mut low = 0;
        let mut high = self.len;
        while low < high {
            let middle = low + (high - low) / 2;
            match slots[middle].key.cmp(key) {
                Ordering::Less => low = middle + 1,
                Ordering::Equal => return Ok(middle),
                Ordering::Greater => high = middle,
            }
        }
        Err(low)
    }

    // The key's number, or 0, the number of what does not stand. A match, since `map_or` would join both cases into one goal.
    pub fn read(&self, key: &K) -> u32
        ensures { result ≡ at (contents self.now) (K.number key.now) }
    {
        match self.find(key) {
            Ok(i) => self.slots[i].number,
            Err(_) => 0,
        }
    }

    // The lowest key goes into a place that the caller lends, as sets do from a store, and its number is the answer; with none, the place stays as it
    // was.
    pub fn lowest(&self, place: &mut K) -> Option<u32>
        ensures { Handed K.number (lowest_of (contents self.now)) result place.old place.new }
    {
        hand_out(self.standing().first(), place)
    }

    // The highest key, likewise.
    #[tactic(auto, using(crate::proofs::Ends::highest_is_last))]
    pub fn highest(&self, place: &mut K) -> Option<u32>
        ensures { Handed K.number (highest_of (contents self.now)) result place.old place.new }
    {
        hand_out(self.standing().last(), place)
    }

    // Takes every key out. Each call that changes a table says that its room stays: no invariant speaks of two states.
    pub fn clear(&mut self)
        ensures empty { contents self.new ≡ [] }
        ensures room { room self.new ≡ room self.old }
    {
        self.len = 0;
    }

    // Puts the key with a number, in the place of the number that it had; 0 removes the key. Where there is no room for one more key,
    // nothing changes.
    pub fn write(&mut self, key: &K, value: u32) -> Result<(), Full>
        ensures wrote { Wrote (fits (at_most (room self.old))) (contents self.old) (K.number key.now) value (contents self.new) (is_ok result) }
        ensures refused { is_ok result ≡ false → self.new ≡ self.old }
        ensures room { room self.new ≡ room self.old }
    {
        match (self.find(key), value) {
            (Ok(i), 0) => self.remove(i),
            (Ok(i), _) => self.slots[i].number = value,
            (Err(_), 0) => {}
            (Err(_), _) if self.len == self.slots.len() => return Err(Full),
            (Err(i), number) => self.insert(i, Slot { key: *key, number }),
        }
        Ok(())
    }

    // Takes out the slot at `i`.
    fn remove(&mut self, i: usize)
        requires { i < self.old.len }
        ensures after { contents self.new ≡ remove (contents self.old) i }
        ensures room { room self.new ≡ room self.old }
    {
        self.slots.copy_within(i + 1..self.len, i);
        self.len -= 1;
    }

    // Puts a slot in at `i`, where its key falls.
    fn insert(&mut self, i: usize, slot: Slot<K>)
        requires falls { FallsAt (contents self.old) (K.number slot.key) i }
        requires nonzero { 0 < slot.number }
        requires free { self.old.len < room self.old }
        ensures after { contents self.new ≡ insert (contents self.old) i (K.number slot.key, slot.number) }
        ensures room { room self.new ≡ room self.old }
    {
        let n = self.len;
        let slots = &mut *self.slots;
        slots.copy_within(i..n, i + 1);
        slots[i] = slot;
        self.len = n + 1;
    }
}

// The key of a slot goes into `place`, and its number is the answer; with no slot, the place stays as it was.
fn hand_out<K: Key>(slot: Option<&Slot<K>>, place: &mut K) -> Option<u32>
    ensures { Handed K.number (option_map (term K.number) (option_copied slot.entry)) result place.old place.new }
{
    let slot = slot?;
    *place = slot.key;
    Some(slot.number)
}
