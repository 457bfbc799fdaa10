// The row and the bucket table side by side.
ghost use Rattle.std.specs.Prelude.{◌≡◌, [], length};
ghost use Rattle.store.specs.Batches.{written, pairs};
ghost use Rattle.store.specs.Stores.{at_most, fits, taken};

use buckets::bucket::Buckets;
use buckets::term::Term;
use sets::RankSet;
use store::Store;
use store::batch::write_all;
use store::row::Row;
use store::slot::Slot;

// How many of the writes an empty row and an empty bucket table grant. Over as many slots, both grant as many.
pub fn granted_by_both(
    slots: &mut [Slot<RankSet>],
    records: &mut [Term],
    writes: &[Slot<RankSet>],
) -> (usize, usize)
    ensures row { result.0 ≡ (written (fits (at_most (taken 65536 (length slots.old)))) [] (pairs writes.now)).0 }
    ensures buckets { result.1 ≡ (written (fits (at_most (taken 65536 (length records.old)))) [] (pairs writes.now)).0 }
    ensures agree { length slots.old ≡ length records.old → result.0 ≡ result.1 }
{
    let mut row = Row::new(slots);
    let mut buckets = Buckets::new(records);
    (write_all(&mut row, writes), write_all(&mut buckets, writes))
}

#[cfg(test)]
mod tests {
    use super::*;
    use crate::tests::refused;
    use refusal::{Fault, Layer, Refusal};
    use std::process::Abort;
    use store::check::check_slots;
    use store::labels::Labels;

    // The set of ranks that a test names: all are ranks, so that none is refused.
    fn set_of(ranks: &[u16]) -> RankSet {
        let mut set = RankSet::empty();
        for rank in ranks {
            set.insert(*rank);
        }
        set
    }

    fn term(ranks: &[u16], number: u32) -> Slot<RankSet> {
        Slot {
            key: set_of(ranks),
            number,
        }
    }

    // A list of writes with an insertion, a replacement, a removal, a slot used again, and a 0 at a set that does not stand.
    fn writes() -> [Slot<RankSet>; 9] {
        [
            term(&[3], 5),
            term(&[], 1),
            term(&[0, 511], 7),
            term(&[3], 6),
            term(&[], 0),
            term(&[64], 9),
            term(&[63], 0),
            term(&[1, 2], 4),
            term(&[], 2),
        ]
    }

    // The rank that the handed-out set has lowest, and its number.
    fn told(number: Option<u32>, place: &RankSet) -> (Option<u32>, Option<u16>) {
        (number, place.lowest())
    }

    // What a store answers to the writes: how many it grants, and then its count, its numbers and its ends. Call by call, apart from the program
    // that prints such answers.
    fn check_answers<S: Store, T: Store>(rt: &impl Abort, one: &mut S, other: &mut T) {
        let all = writes();
        assert_eq!(rt; write_all(one, &all), write_all(other, &all));
        assert_eq!(rt; one.count(), other.count());
        for write in &all {
            assert_eq!(rt; one.read(&write.key), other.read(&write.key));
        }
        let mut here = set_of(&[77]);
        let mut there = set_of(&[77]);
        assert_eq!(rt;
            told(one.lowest(&mut here), &here),
            told(other.lowest(&mut there), &there)
        );
        assert_eq!(rt;
            told(one.highest(&mut here), &here),
            told(other.highest(&mut there), &there)
        );
    }

    #[test]
    fn stores_agree(rt: HostRuntime) {
        for n in 0..7 {
            let mut slots = [term(&[9], 9); 7];
            let mut records = [Term::blank(); 7];
            let mut row = Row::new(&mut slots[..n]);
            let mut buckets = Buckets::new(&mut records[..n]);
            check_answers(&rt, &mut row, &mut buckets);
        }
    }

    #[test]
    fn lent_memory_is_used_again(rt: HostRuntime) {
        let mut records = [Term::blank(); 3];
        let granted = granted_by_both(&mut [term(&[9], 9); 3], &mut records, &writes());
        assert_eq!(rt; granted, (7, 7));
        let buckets = Buckets::new(&mut records);
        let mut place = set_of(&[77]);
        assert_eq!(rt; buckets.count(), 0);
        assert_eq!(rt; told(buckets.highest(&mut place), &place), (None, Some(77)));
    }

    fn bad_slots(slots: usize) -> Option<Refusal> {
        refused(Fault::BadSlots, slots, Layer::Store)
    }

    fn check_limits<S: Store>(rt: &impl Abort) {
        for n in [1, 4_096, 65_536] {
            assert_eq!(rt; check_slots::<S>(n).err(), None);
        }
        for n in [0, 65_537, usize::MAX] {
            assert_eq!(rt; check_slots::<S>(n).err(), bad_slots(n));
        }
    }

    #[test]
    fn slots(rt: HostRuntime) {
        check_limits::<Row<'_>>(&rt);
        check_limits::<Buckets<'_>>(&rt);
    }

    #[test]
    fn labels(rt: HostRuntime) {
        let mut slots = [Slot {
            key: 0u16,
            number: 0,
        }; 2];
        let mut labels = Labels::new(&mut slots);
        assert_eq!(rt; labels.write(&65_535, 1).is_ok(), true);
        assert_eq!(rt; labels.write(&0, 2).is_ok(), true);
        assert_eq!(rt; labels.write(&1, 3).is_ok(), false);
        assert_eq!(rt;
            (labels.read(&0), labels.read(&1), labels.read(&65_535)),
            (2, 0, 1)
        );
        let mut lowest = 7;
        assert_eq!(rt; (labels.lowest(&mut lowest), lowest), (Some(2), 0));
    }
}
