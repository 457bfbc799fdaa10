// What a store is asked at each step, and how it is emptied: all by the calls that every store has.
ghost use Rattle.std.specs.Prelude.{◌≡◌, [], map, drop, IsSome, IfSome, IfOk, OnOk};
ghost use Rattle.std.specs.Option.{option_map};
ghost use Rattle.std.specs.Fn.{FnOnceReturnsAtMut};
ghost use Rattle.algebra.specs.Poly.{lowest as lowest_of};
ghost use Rattle.sets.specs.Numbers.{number};
ghost use Rattle.store.specs.Answers.{Wrote};
ghost use Rattle.store.specs.Stores.{fits};
ghost use Rattle.store.specs.Terms.{term};
ghost use Rattle.store_trace.specs.Told.{Tells, Answered, after, HandedOut};

use sets::RankSet;
use std::alloc::{AllocError, Global};
use store::Store;
use store::slot::Slot;

// What a store answers to a write, and to every question after it.
#[derive(Clone, Copy, PartialEq, Eq, Debug)]
pub struct Answer {
    pub granted: bool,
    pub count: usize,
    pub read: u32,
    pub lowest: Option<Slot<RankSet>>,
    pub highest: Option<Slot<RankSet>>,
}

// What a question hands out: a number, and a set in the place that it is lent.
fn handed_out<F: FnOnce(&mut RankSet) -> Option<u32>>(question: F) -> Option<Slot<RankSet>>
    requires { F.IsAlwaysCallable question }
    ensures { HandedOut (FnOnceReturnsAtMut F.FnOnce question) result }
{
    let mut key = RankSet::empty();
    question(&mut key).map(|number| Slot { key, number })
}

// Writes a number at a set, and asks the store everything.
pub(crate) fn step<S: Store>(store: &mut S, write: &Slot<RankSet>) -> Answer
    ensures wrote { Wrote (fits (S.Store.room store.old)) (S.Store.poly store.old) (number write.now.key) write.now.number (S.Store.poly store.new) result.granted }
    ensures tells { Tells (S.Store.poly store.new) (number write.now.key) result }
    ensures same { S.Store.room store.new ≡ S.Store.room store.old }
{
    let granted = store.write(&write.key, write.number).is_ok();
    Answer {
        granted,
        count: store.count(),
        read: store.read(&write.key),
        lowest: handed_out(|place| store.lowest(place)),
        highest: handed_out(|place| store.highest(place)),
    }
}

// Makes the step with two stores. The answer is that of both; None where they disagree, which equal stores never do.
pub(crate) fn step_both<R: Store, B: Store>(
    row: &mut R,
    buckets: &mut B,
    write: &Slot<RankSet>,
) -> Option<Answer>
    ensures row { R.Store.poly row.new ≡ after (R.Store.room row.old) (R.Store.poly row.old) write.now }
    ensures buckets { B.Store.poly buckets.new ≡ after (B.Store.room buckets.old) (B.Store.poly buckets.old) write.now }
    ensures both { IfSome result (λ a. Answered (R.Store.room row.old) (R.Store.poly row.old) write.now a × Answered (B.Store.room buckets.old) (B.Store.poly buckets.old) write.now a) }
    ensures agree { R.Store.room row.old ≡ B.Store.room buckets.old → R.Store.poly row.old ≡ B.Store.poly buckets.old → IsSome result }
    ensures same { (R.Store.room row.new ≡ R.Store.room row.old) × (B.Store.room buckets.new ≡ B.Store.room buckets.old) }
{
    let answer = step(row, write);
    let other = step(buckets, write);
    (answer == other).then_some(answer)
}

// The lowest standing set, which is taken out.
#[tactic(auto, using(crate::proofs::Drained::taken))]
fn take_lowest<S: Store>(store: &mut S) -> Option<Slot<RankSet>>
    ensures lowest { option_map (term number) result ≡ lowest_of (S.Store.poly store.old) }
    ensures rest { S.Store.poly store.new ≡ drop 1 (S.Store.poly store.old) }
{
    let lowest = handed_out(|place| store.lowest(place))?;
    // Never refused: what is left is a part of what the store holds.
    let _ = store.write(&lowest.key, 0);
    Some(lowest)
}

// What a store holds, from the lowest set to the highest; it is empty afterwards.
pub(crate) fn drain<S: Store>(heap: Global, store: &mut S) -> Result<Vec<Slot<RankSet>>, AllocError>
    ensures all { IfOk result (λ v. map (term number) v.items ≡ S.Store.poly store.old) }
    ensures empty { OnOk result (S.Store.poly store.new ≡ []) }
{
    let mut all = Vec::new(heap);
    while let Some(lowest) = take_lowest(store) {
        all.push(lowest)?;
    }
    Ok(all)
}
