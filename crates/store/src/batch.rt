// Writes that are given to a store in order.
ghost use Rattle.std.specs.Prelude.{◌≡◌};
ghost use Rattle.algebra.specs.Meaning.{Meaning};
ghost use Rattle.store.specs.Stores.{fits};
ghost use Rattle.store.specs.Batches.{written, pairs};

use crate::Store;
use crate::slot::Slot;
use sets::RankSet;

// Writes each set with its number, until the first write that the store refuses, and answers how many were granted. What a write means for
// the number of each set is part of the promise.
pub fn write_all<S: Store>(store: &mut S, terms: &[Slot<RankSet>]) -> usize
    ensures granted { result ≡ (written (fits (S.room store.old)) (S.poly store.old) (pairs terms.now)).0 }
    ensures after { S.poly store.new ≡ (written (fits (S.room store.old)) (S.poly store.old) (pairs terms.now)).1 }
    ensures same { S.room store.new ≡ S.room store.old }
    ensures law { Meaning }
{
    for (i, term) in terms.iter().enumerate() {
        if store.write(&term.key, term.number).is_err() {
            return i;
        }
    }
    terms.len()
}
