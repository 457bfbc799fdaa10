// Polynomials in lent memory, behind one trait that gives their meaning.
#![tactic(auto)]

ghost use Rattle.std.specs.Prelude.{◌≡◌, ℕ, [], length, is_ok};
ghost use Rattle.algebra.specs.Poly.{Poly, at, lowest as lowest_of, highest as highest_of};
ghost use Rattle.sets.specs.Numbers.{number};
ghost use Rattle.store.specs.Answers.{Handed, Wrote};
ghost use Rattle.store.specs.Stores.{Room, fits, StoreLaws};

use sets::RankSet;

pub mod batch;
pub mod check;
pub mod key;
pub mod labels;
pub mod row;
pub mod slot;
pub mod table;

use slot::Full;

// A store: one number for each set of ranks, all but finitely many 0. A set stands where its number is not 0.
pub trait Store {
    // The most slots that it takes.
    const MOST: usize;

    ghost most: { ℕ };

    // What it means.
    ghost poly: { Self → Poly };

    // Which standing sets it can hold: fixed when it is made. Each call that changes a store says so, since no invariant speaks of two states.
    ghost room: { Self → Room };

    // `MOST`, for generic code: of an impl with a lifetime, no clause can say yet what its constant is.
    fn most_slots() -> usize
        ensures { result ≡ most };

    // Makes every number 0.
    fn clear(&mut self)
        ensures empty { poly self.new ≡ [] }
        ensures same { room self.new ≡ room self.old };

    // The number of a set.
    fn read(&self, set: &RankSet) -> u32
        ensures { result ≡ at (poly self.now) (number «set».now) };

    // The highest standing set goes into a place that the caller lends, its number is the answer; with none, the place stays as it was. That
    // sets are handed out so, and not as an `Option` of a set, is a rule of the project (docs/STORES.md).
    fn highest(&self, place: &mut RankSet) -> Option<u32>
        ensures { Handed number (highest_of (poly self.now)) result place.old place.new };

    // The lowest standing set, likewise.
    fn lowest(&self, place: &mut RankSet) -> Option<u32>
        ensures { Handed number (lowest_of (poly self.now)) result place.old place.new };

    // How many sets stand.
    fn count(&self) -> usize
        ensures { result ≡ length (poly self.now) };

    // Gives one set a number, all others keeping theirs; refused exactly where the outcome cannot be held, and then nothing changes.
    fn write(&mut self, set: &RankSet, value: u32) -> Result<(), Full>
        ensures wrote { Wrote (fits (room self.old)) (poly self.old) (number «set».now) value (poly self.new) (is_ok result) }
        ensures same { room self.new ≡ room self.old };

    // What every store owes.
    ghost laws: { StoreLaws poly room };
}
