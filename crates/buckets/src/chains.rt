// Chains of slots inside lent records: what a table does between two states that are sound, so that each step asks for the indices that it uses.
// Links are indices, for the memory is lent and fixed.
ghost use Rattle.std.specs.Prelude.{◌≡◌, ◌<◌, ◌≤◌, [], length, IfSome};
ghost use Rattle.algebra.specs.Gathered.{gather};
ghost use Rattle.sets.specs.Numbers.{number};
ghost use Rattle.buckets.specs.Chains.{link};
ghost use Rattle.buckets.specs.Records.{home, contents, firsts, nexts, Sound, TakenBy, Released, Relinked};
ghost use Rattle.buckets.specs.Spread.{EverSpread};

use crate::term::Term;
use sets::RankSet;

// The bucket of a set among n.
pub(crate) fn home_of(set: &RankSet, n: usize) -> usize
    requires { 0 < n }
    ensures value { result ≡ home n (number «set».now) }
    ensures bound { result < n }
{
    (set.hash() % n as u64) as usize
}

// What a place in the chain of the bucket b links to.
pub(crate) fn link_at(slots: &[Term], b: usize, before: Option<usize>) -> u32
    requires bucket { b < length slots.now }
    requires slot { IfSome before (λ q. q < length slots.now) }
    ensures { result ≡ link (firsts slots.now) (nexts slots.now) b before }
{
    match before {
        None => slots[b].first,
        Some(q) => slots[q].next,
    }
}

// Links a place in the chain of the bucket b, at its front or after a slot, to another slot. Not one function with `link_at` that lends the link
// as `&mut`: it would need a clause about loans, and its callers would gain no line.
#[tactic(auto, using(crate::proofs::Fields::changes))]
pub(crate) fn relink(slots: &mut [Term], b: usize, before: Option<usize>, to: u32)
    requires bucket { b < length slots.old }
    requires slot { IfSome before (λ q. q < length slots.old) }
    ensures { Relinked slots.old slots.new b before to }
{
    match before {
        None => slots[b].first = to,
        Some(q) => slots[q].next = to,
    }
}

// Puts a set with its code into a slot, which links to the next.
#[tactic(auto, using(crate::proofs::Fields::changes))]
pub(crate) fn take(slots: &mut [Term], i: usize, set: &RankSet, code: u32, next: u32)
    requires { i < length slots.old }
    ensures { TakenBy slots.old slots.new i (number «set».now) code next }
{
    slots[i] = Term {
        set: *set,
        code,
        next,
        ..slots[i]
    };
}

// Frees a slot, and lists it as the spare k.
#[tactic(auto, using(crate::proofs::Fields::changes))]
pub(crate) fn release(slots: &mut [Term], i: usize, k: usize)
    requires few { length slots.old ≤ 65536 }
    requires slot { i < length slots.old }
    requires spare { k < length slots.old }
    ensures { Released slots.old slots.new i k }
{
    slots[i].code = 0;
    slots[k].spare = i as u32;
}

// Frees every slot. That every table is spread, whatever it has gone through, is part of the promise.
#[tactic(auto, using(crate::proofs::Fields::changes))]
pub(crate) fn wipe(slots: &mut [Term])
    requires { length slots.old ≤ 65536 }
    ensures sound { Sound slots.new 0 }
    ensures long { length slots.new ≡ length slots.old }
    ensures means { gather (contents slots.new) ≡ [] }
    ensures law { EverSpread }
{
    for (k, slot) in slots.iter_mut().enumerate() {
        *slot = Term {
            spare: k as u32,
            ..Term::blank()
        };
    }
}
