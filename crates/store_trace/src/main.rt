// A list of writes from standard input, run over a row and over a bucket table of the same size: each step's answer, and in the end what
// both hold.
#![tactic(auto)]

ghost use Rattle.std.specs.Prelude.{◌≡◌, true, false, [], fold, MatchResult, OnOk};
ghost use Rattle.store.specs.Stores.{takes};
ghost use Rattle.store.specs.Slots.{bad_slots};
ghost use Rattle.store_trace.specs.Told.{after};

use anyhow::anyhow;
use buckets::bucket::Buckets;
use buckets::term::Term;
use refusal::Refusal;
use sets::RankSet;
use store::Store;
use store::check::check_slots;
use store::row::Row;
use store::slot::Slot;

mod input;
mod show;
mod steps;

use input::{Malformed, Trace, read_trace};
use show::{Listed, Shown};
use steps::{drain, step_both};

// Runs each write over both stores, and prints it with what they answer.
fn run_writes<R: Store, B: Store>(
    rt: &impl Print,
    row: &mut R,
    buckets: &mut B,
    writes: &[Slot<RankSet>],
) -> anyhow::Result<()>
    ensures row { OnOk result (R.Store.poly row.new ≡ fold (after (R.Store.room row.old)) (R.Store.poly row.old) writes.now) }
    ensures buckets { OnOk result (B.Store.poly buckets.new ≡ fold (after (B.Store.room buckets.old)) (B.Store.poly buckets.old) writes.now) }
{
    for write in writes {
        let Some(answer) = step_both(row, buckets, write) else {
            println!(rt; "write {}: row and buckets disagree", Shown(write))?;
            return Err(anyhow!("row and buckets disagree"));
        };
        println!(rt; "write {}: {answer}", Shown(write))?;
    }
    Ok(())
}

// Prints what a store holds, and leaves it empty.
fn print_closing<S: Store>(
    rt: &(impl Print + AllocGlobal),
    name: &str,
    store: &mut S,
) -> anyhow::Result<()>
    ensures { OnOk result (S.Store.poly store.new ≡ []) }
{
    let all = drain(rt.alloc(), store)?;
    println!(rt; "{name}: {}", Listed(&all))?;
    Ok(())
}

// Prints which line is malformed, and fails. The error has its own text; the line is printed already.
fn report(rt: &impl Print, malformed: Malformed) -> anyhow::Result<()> {
    println!(rt; "{malformed}")?;
    Err(match malformed {
        Malformed::NoSlots { .. } => anyhow!("there is no number of slots"),
        Malformed::NoWrite { .. } => anyhow!("a line is no write"),
    })
}

// Whether both stores take so many slots.
fn check_both(slots: usize) -> Result<(), Refusal>
    ensures { MatchResult result (λ _. takes 65536 slots ≡ true) (λ e. (takes 65536 slots ≡ false) × (e ≡ bad_slots slots)) }
{
    check_slots::<Row<'_>>(slots)?;
    check_slots::<Buckets<'_>>(slots)
}

// Makes the two stores, and runs a trace over them.
fn run(rt: &(impl Print + AllocGlobal), trace: &Trace) -> anyhow::Result<()> {
    let slots = trace.slots;
    // A refusal is an answer of this program, which ends well after it, and so not passed on.
    if let Err(refusal) = check_both(slots) {
        println!(rt; "{refusal}")?;
        return Ok(());
    }
    println!(rt; "slots {slots}")?;
    let blank = Slot {
        key: RankSet::empty(),
        number: 0,
    };
    let mut row_slots = vec![in rt.alloc(); blank; slots]?;
    let mut terms = vec![in rt.alloc(); Term::blank(); slots]?;
    let mut row = Row::new(&mut row_slots);
    let mut buckets = Buckets::new(&mut terms);
    run_writes(rt, &mut row, &mut buckets, &trace.writes)?;
    if let Err(malformed) = trace.end {
        return report(rt, malformed);
    }
    print_closing(rt, "row", &mut row)?;
    print_closing(rt, "buckets", &mut buckets)
}

fn main(rt: HostRuntime) -> anyhow::Result<()> {
    match read_trace(&rt)? {
        Ok(trace) => run(&rt, &trace),
        Err(malformed) => report(&rt, malformed),
    }
}
