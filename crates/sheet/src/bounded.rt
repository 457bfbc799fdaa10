// A list of at most N elements, in place, that can be copied, as the library's `ArrayVec` cannot.
ghost use Rattle.std.specs.Prelude.{◌≡◌, ◌≤◌, length};

use std::alloc::AllocError;
use store::slot::Full;

// The first `len` of the items are the list.
pub struct Bounded<T, const N: usize> {
    items: [T; N],
    len: usize,
    ghost filled: { length items ≡ N },
    ghost within: { len ≤ N },
}

impl<T: Copy, const N: usize> Copy for Bounded<T, N> {}

// By hand, since no derive knows the facts of a list whose elements are of any type.
impl<T: Copy, const N: usize> Clone for Bounded<T, N> {
    ghost use Rattle.std.specs.Prelude.{◌≡◌};

    ghost is_clone = { λ x y. x ≡ y };

    ghost is_infallible = { λ _. Unit {0} };

    fn clone(&self) -> Result<Self, AllocError> {
        Ok(*self)
    }
}

impl<T: Copy, const N: usize> Bounded<T, N> {
    ghost use Rattle.std.specs.Prelude.{◌≡◌, [], ◌∷◌, ◌++◌, length, is_ok, if◌then◌else◌, nat_lt};
    ghost use Rattle.sheet.specs.Held.{held};

    // The empty list; `blank` fills what no element takes.
    pub fn new(blank: T) -> Bounded<T, N>
        ensures { held result ≡ [] }
    {
        Bounded {
            items: [blank; N],
            len: 0,
        }
    }

    pub fn as_slice(&self) -> &[T]
        ensures { result.now ≡ held self.now }
    {
        &self.items[..self.len]
    }

    pub fn len(&self) -> usize
        ensures { result ≡ length (held self.now) }
    {
        self.as_slice().len()
    }

    pub fn clear(&mut self)
        ensures { held self.new ≡ [] }
    {
        self.len = 0;
    }

    // One element more, or, where N are there, a refusal that changes nothing.
    pub fn push(&mut self, x: T) -> Result<(), Full>
        ensures answer { is_ok result ≡ nat_lt (length (held self.old)) N }
        ensures after { held self.new ≡ (if is_ok result then held self.old ++ x ∷ [] else held self.old) }
    {
        if self.len == N {
            return Err(Full);
        }
        self.items[self.len] = x;
        self.len += 1;
        Ok(())
    }
}
