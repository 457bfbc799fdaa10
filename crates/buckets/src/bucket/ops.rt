// The calls on a bucket table.
ghost use Rattle.std.specs.Prelude.{◌≡◌, [], length};
ghost use Rattle.store.specs.Stores.{at_most, taken};
ghost use Rattle.buckets.specs.Bucketed.{bucket_poly, bucket_room, AlwaysSpread, bucket_laws};

use crate::bucket::Buckets;
use crate::chains::wipe;
use crate::term::Term;
use sets::RankSet;
use std::cmp::Reverse;
use store::Store;
use store::check::slots_taken;
use store::slot::Full;

impl<'a> Buckets<'a> {
    // An empty table over lent records, whatever they held. Over a number of records that `check_slots` refuses, it uses none of them, and
    // holds the empty polynomial alone.
    pub fn new(slots: &'a mut [Term]) -> Buckets<'a>
        ensures empty { bucket_poly result ≡ [] }
        ensures room { bucket_room result ≡ at_most (taken 65536 (length slots.old)) }
        ensures spread { AlwaysSpread }
    {
        let n = slots_taken::<Buckets<'_>>(slots.len());
        let slots = &mut slots[..n];
        wipe(slots);
        Buckets { slots, count: 0 }
    }
}

impl Store for Buckets<'_> {
    const MOST: usize = 65_536;

    ghost most = { 65536 };

    ghost poly = { bucket_poly };

    ghost room = { bucket_room };

    ghost laws = { bucket_laws };

    fn most_slots() -> usize
        ensures { result ≡ 65536 }
    {
        Self::MOST
    }

    fn clear(&mut self) {
        wipe(&mut *self.slots);
        self.count = 0;
    }

    // 0 is the number of what does not stand. A match, since `map_or` would join both cases into one goal.
    fn read(&self, set: &RankSet) -> u32 {
        match self.slot_of(set) {
            Some(i) => self.slots[i].code,
            None => 0,
        }
    }

    // The two ends differ in the key alone, and a function over both would take a closure for three lines. The key is lent, so that no set is
    // copied. `max_by_key` would choose without a branch, and wait for each comparison before it begins the next.
    fn highest(&self, place: &mut RankSet) -> Option<u32> {
        let highest = self
            .slots
            .iter()
            .filter(|t| t.code != 0)
            .min_by_key(|t| Reverse(&t.set))?;
        *place = highest.set;
        Some(highest.code)
    }

    fn lowest(&self, place: &mut RankSet) -> Option<u32> {
        let lowest = self
            .slots
            .iter()
            .filter(|t| t.code != 0)
            .min_by_key(|t| &t.set)?;
        *place = lowest.set;
        Some(lowest.code)
    }

    fn count(&self) -> usize {
        self.count
    }

    fn write(&mut self, set: &RankSet, value: u32) -> Result<(), Full> {
        match (self.slot_of(set), value) {
            (Some(i), 0) => self.remove(i),
            (Some(i), _) => self.replace(i, value),
            (None, 0) => {}
            (None, _) => self.insert(set, value)?,
        }
        Ok(())
    }
}
