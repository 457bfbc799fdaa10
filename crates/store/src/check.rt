// The check of lent slots, one for every store.
ghost use Rattle.std.specs.Prelude.{◌≡◌, true, false, MatchResult};
ghost use Rattle.store.specs.Stores.{takes, taken};
ghost use Rattle.store.specs.Slots.{bad_slots};

use crate::Store;
use refusal::{Fault, Layer, Refusal};

// Whether a store takes so many slots: one at least, and no more than its most. It looks at their number alone: that slots are checked before
// a store is made, and that the making then cannot fail, is a rule of the project (docs/STORES.md).
pub fn check_slots<S: Store>(slots: usize) -> Result<(), Refusal>
    ensures { MatchResult result (λ _. takes S.most slots ≡ true) (λ e. (takes S.most slots ≡ false) × (e ≡ bad_slots slots)) }
{
    if !(1..=S::most_slots()).contains(&slots) {
        return Err(Refusal {
            fault: Fault::BadSlots,
            place: slots,
            layer: Layer::Store,
        });
    }
    Ok(())
}

// How many of the lent slots a store works over: all of them, or none, where it does not take so many.
pub fn slots_taken<S: Store>(slots: usize) -> usize
    ensures { result ≡ taken S.most slots }
{
    check_slots::<S>(slots).map_or(0, |()| slots)
}
