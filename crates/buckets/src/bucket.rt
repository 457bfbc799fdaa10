// The bucket table as a store.
ghost use Rattle.buckets.specs.Records.{Sound};

use crate::term::Term;

pub mod ops;
mod search;
mod writes;

// A table over lent records, with what it keeps: how many sets stand, that no set has two slots, and how the sets are spread. A bucket knows
// the first of its slots, each slot the next of its bucket, and as many spares as there are free slots are free, all of them different.
#[derive(Drop)]
pub struct Buckets<'a> {
    slots: &'a mut [Term],
    // How many slots are not free: the spares end by it, and to count them anew would go over every slot.
    count: usize,
    ghost sound: { Sound slots.now count },
}
