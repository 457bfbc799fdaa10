// The records that a bucket table works in.
ghost use Rattle.std.specs.Prelude.{◌≡◌};
ghost use Rattle.sets.specs.Numbers.{number};
ghost use Rattle.buckets.specs.declared.term.TheConstants.{NONE};

use sets::RankSet;

// No slot: the end of a chain. No `Option`, since a reader's one test, that a link is below the number of slots, also shows its index in range.
pub(crate) const NONE: u32 = u32::MAX;

// A slot: a set with its code, free where the code is 0, the number of what does not stand, and beside them what the table keeps for its chains.
// A record of a bucket table is a set and a code, and no `Slot` of the ordered one. Links are indices into the lent records, for there is no heap.
#[derive(Clone, Copy)]
pub struct Term {
    pub(crate) set: RankSet,
    pub(crate) code: u32,
    // The first slot of the bucket that has this slot's index.
    pub(crate) first: u32,
    // The next slot of the chain that this slot is in.
    pub(crate) next: u32,
    // An entry in the list of free slots.
    pub(crate) spare: u32,
}

impl Term {
    // A free slot, to fill memory with that is to be lent.
    pub fn blank() -> Term
        ensures free { (result.code ≡ 0) × (number result.set ≡ 0) }
        ensures unlinked { result.first ≡ NONE }
    {
        Term {
            set: RankSet::empty(),
            code: 0,
            first: NONE,
            next: NONE,
            spare: 0,
        }
    }
}
