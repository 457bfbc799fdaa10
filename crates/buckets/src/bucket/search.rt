// Where in a bucket table a set is, or goes. A chain is followed by its links, from slot to slot of the lent memory, with the test that ends it in the
// loop's head; by `successors` that test would stand in a closure beside it.
ghost use Rattle.std.specs.Prelude.{◌≡◌, ◌-◌, ◌<◌, length, IfSome, MatchOption, slice_index};
ghost use Rattle.algebra.specs.Gathered.{Absent};
ghost use Rattle.sets.specs.Numbers.{number};
ghost use Rattle.buckets.specs.Chains.{Place};
ghost use Rattle.buckets.specs.Records.{home, firsts, nexts, spares, Found};
ghost use Rattle.buckets.specs.Bucketed.{held, places};

use crate::bucket::Buckets;
use crate::chains::home_of;
use sets::RankSet;

impl Buckets<'_> {
    // The slot of a set.
    #[tactic(auto, using(crate::proofs::Fields::fields))]
    pub(super) fn slot_of(&self, set: &RankSet) -> Option<usize>
        ensures slot { IfSome result (λ i. i < places self.now) }
        ensures found { MatchOption result (Absent (held self.now) (number «set».now)) (Found (held self.now) (number «set».now)) }
    {
        let slots = &*self.slots;
        let n = slots.len();
        if n == 0 {
            return None;
        }
        let mut i = slots[home_of(set, n)].first as usize;
        while i < n {
            if slots[i].set == *set {
                return Some(i);
            }
            i = slots[i].next as usize;
        }
        None
    }

    // The place where the slot j stands in the chain of the bucket b, or would.
    pub(super) fn place_of(&self, b: usize, j: usize) -> Option<usize>
        requires bucket { b < places self.now }
        requires slot { j < places self.now }
        ensures slot { IfSome result (λ q. q < places self.now) }
        ensures place { Place (home (places self.now)) (held self.now) (firsts self.now.slots.now) (nexts self.now.slots.now) b j result }
    {
        let mut before = None;
        let mut i = self.slots[b].first as usize;
        while i < j {
            before = Some(i);
            i = self.slots[i].next as usize;
        }
        before
    }

    // The free slot that was listed last.
    #[tactic(auto, using(crate::proofs::Fields::fields))]
    pub(super) fn last_spare(&self) -> u32
        requires { self.now.count < places self.now }
        ensures value { result ≡ slice_index (spares self.now.slots.now) (places self.now - self.now.count - 1) }
        ensures bound { result < places self.now }
    {
        self.slots[self.slots.len() - self.count - 1].spare
    }
}
