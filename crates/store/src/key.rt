// Keys of an ordered table.
ghost use Rattle.std.specs.Prelude.{◌≡◌, ℕ, refl};
ghost use Rattle.std.specs.Ordering.{nat_cmp};
ghost use Rattle.sets.specs.Numbers.{number as set_number};
ghost use Rattle.store.specs.Keys.{label_number};

use sets::RankSet;

// A key stands for a number, and keys are ordered as their numbers.
pub trait Key: Copy + Ord {
    ghost number: { Self → ℕ };

    ghost by_number: { (a b : Self) → Self.cmp a b ≡ nat_cmp (number a) (number b) };
}

// A label is its own number.
impl Key for u16 {
    ghost number = { label_number };

    ghost by_number = { λ _ _. refl };
}

impl Key for RankSet {
    ghost number = { set_number };

    ghost by_number = { λ _ _. refl };
}
