// How a set gets a slot of a bucket table, keeps it with another number, and loses it. Each says that the places stay: no invariant speaks of
// two states.
ghost use Rattle.std.specs.Prelude.{◌≡◌, ◌<◌, is_ok};
ghost use Rattle.algebra.specs.Gathered.{set_at, Absent};
ghost use Rattle.algebra.specs.Poly.{put};
ghost use Rattle.sets.specs.Numbers.{number};
ghost use Rattle.store.specs.Answers.{Wrote};
ghost use Rattle.store.specs.Stores.{fits};
ghost use Rattle.buckets.specs.Chains.{Taken};
ghost use Rattle.buckets.specs.Bucketed.{bucket_poly, bucket_room, held, places};

use crate::bucket::Buckets;
use crate::chains::{home_of, link_at, release, relink, take};
use sets::RankSet;
use store::slot::Full;

impl Buckets<'_> {
    // Gives a free slot to a set that has none; refused where no slot is free.
    pub(super) fn insert(&mut self, set: &RankSet, code: u32) -> Result<(), Full>
        requires absent { Absent (held self.old) (number «set».now) }
        requires some { 0 < code }
        ensures wrote { Wrote (fits (bucket_room self.old)) (bucket_poly self.old) (number «set».now) code (bucket_poly self.new) (is_ok result) }
        ensures long { places self.new ≡ places self.old }
    {
        let n = self.slots.len();
        if self.count == n {
            return Err(Full);
        }
        let free = self.last_spare();
        let bucket = home_of(set, n);
        let before = self.place_of(bucket, free as usize);
        let slots = &mut *self.slots;
        let next = link_at(slots, bucket, before);
        take(slots, free as usize, set, code, next);
        relink(slots, bucket, before, free);
        self.count += 1;
        Ok(())
    }

    // Gives the set of a slot another number, not 0.
    pub(super) fn replace(&mut self, i: usize, code: u32)
        requires taken { Taken (held self.old) i }
        requires some { 0 < code }
        ensures means { bucket_poly self.new ≡ put (bucket_poly self.old) (set_at (held self.old) i) code }
        ensures long { places self.new ≡ places self.old }
    {
        self.slots[i].code = code;
    }

    // Takes a slot out of its chain and frees it.
    pub(super) fn remove(&mut self, i: usize)
        requires taken { Taken (held self.old) i }
        ensures means { bucket_poly self.new ≡ put (bucket_poly self.old) (set_at (held self.old) i) 0 }
        ensures long { places self.new ≡ places self.old }
    {
        let n = self.slots.len();
        let last = n - self.count;
        let slot = self.slots[i];
        let bucket = home_of(&slot.set, n);
        let before = self.place_of(bucket, i);
        let slots = &mut *self.slots;
        relink(slots, bucket, before, slot.next);
        release(slots, i, last);
        self.count -= 1;
    }
}
