// The claims of a sheet, each a list of terms.
ghost use Rattle.std.specs.Prelude.{◌≤◌};

use crate::bounded::Bounded;
use crate::term::Term;
use store::slot::Full;

const MOST_CLAIMS: usize = 8;

// How many claims there are: a type of its own, so that its bound stands while a claim of the table is lent.
#[derive(Clone, Copy)]
struct ClaimCount {
    n: usize,
    ghost few: { n ≤ 8 },
}

// At most eight claims, of at most 64 terms each: the first `count` of the table are there.
#[derive(Clone, Copy)]
pub struct Claims {
    table: [Bounded<Term, 64>; 8],
    count: ClaimCount,
}

impl Claims {
    ghost use Rattle.std.specs.Prelude.{◌≡◌, [], ◌∷◌, ◌++◌, length, is_ok, if◌then◌else◌, nat_lt, slice_index_or};
    ghost use Rattle.sheet.specs.Claimed.{claims_of, latest as latest_of, on_latest};

    pub fn none() -> Claims
        ensures { claims_of result ≡ [] }
    {
        Claims {
            table: [Bounded::new(Term::default()); 8],
            count: ClaimCount { n: 0 },
        }
    }

    pub fn count(&self) -> usize
        ensures { result ≡ length (claims_of self.now) }
    {
        self.count.n
    }

    // The terms of a claim; none where there is no such claim.
    pub fn terms(&self, n: usize) -> &[Term]
        ensures { result.now ≡ slice_index_or (claims_of self.now) n [] }
    {
        if n < self.count() {
            self.table[n].as_slice()
        } else {
            &[]
        }
    }

    // One claim more, without terms, or, where there are eight, a refusal that changes nothing.
    pub fn open(&mut self) -> Result<(), Full>
        ensures answer { is_ok result ≡ nat_lt (length (claims_of self.old)) 8 }
        ensures after { claims_of self.new ≡ (if is_ok result then claims_of self.old ++ [] ∷ [] else claims_of self.old) }
    {
        let n = self.count();
        if n == MOST_CLAIMS {
            return Err(Full);
        }
        let claim = &mut self.table[n];
        claim.clear();
        self.count = ClaimCount { n: n + 1 };
        Ok(())
    }

    // How many terms the claim opened last has; 0 where there is none.
    pub fn latest_len(&self) -> usize
        ensures { result ≡ length (latest_of (claims_of self.now)) }
    {
        let n = self.count();
        if n == 0 {
            return 0;
        }
        self.table[n - 1].len()
    }

    // One term more in the claim opened last, or, where it has 64, a refusal that changes nothing. Where there is no claim, nothing changes.
    pub fn add_term(&mut self, term: Term) -> Result<(), Full>
        ensures after { claims_of self.new ≡ (if is_ok result then on_latest (claims_of self.old) term else claims_of self.old) }
        ensures answer { is_ok result ≡ nat_lt (length (latest_of (claims_of self.old))) 64 }
    {
        let n = self.count();
        if n == 0 {
            return Ok(());
        }
        let claim = &mut self.table[n - 1];
        claim.push(term)
    }
}
