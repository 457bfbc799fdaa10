// The list of writes as text.
ghost use Rattle.std.specs.Prelude.{◌≡◌, ◌≢◌, ◌^◌, ◌<◌, true, false, Some, None, OnOk, IfOk, IfErr, IsErrOf};
ghost use Rattle.std.specs.Option.{SomeIff, option_map};
ghost use Rattle.sets.specs.Numbers.{number};
ghost use Rattle.store_trace.specs.Numerals.{ReadsBelow, AreRanks, set_of};
ghost use Rattle.store_trace.specs.Said.{SaysWrite, only_number, Took};

use sets::{RANKS, RankSet};
use std::alloc::{AllocFailed, Global};
use std::io::ErrorKind;
use std::{fmt, io};
use store::slot::Slot;

// A line that is not what has to stand there, by its number, counted from 1.
#[derive(Clone, Copy, PartialEq, Eq, Debug)]
pub enum Malformed {
    NoSlots { line: u64 },
    NoWrite { line: u64 },
}

impl fmt::Display for Malformed {
    ghost use Rattle.std.specs.Prelude.{Some};
    ghost use Rattle.store_trace.specs.Lines.{text_of};

    ghost output = { λ m. Some (text_of m) };

    fn fmt<W: fmt::Write>(&self, f: &mut fmt::Formatter<W>) -> fmt::Result {
        match self {
            Malformed::NoSlots { line } => write!(f, "line {line} is no number of slots"),
            Malformed::NoWrite { line } => write!(f, "line {line} is no write"),
        }
    }
}

// A trace, up to its first line that is no write.
#[derive(Drop)]
pub struct Trace {
    pub slots: usize,
    pub writes: Vec<Slot<RankSet>>,
    // Whether it was read to the end of the input.
    pub end: Result<(), Malformed>,
}

// Why a line is not taken in.
#[derive(Debug, Drop)]
enum LineError {
    SaysNothing,
    Io(io::Error),
}

// A line that is no text says nothing.
impl From<io::Error> for LineError {
    ghost use Rattle.std.specs.Prelude.{◌≡◌, ◌↔◌};
    ghost use Rattle.std.specs.IoError.{error_kind};
    ghost use Rattle.std.specs.declared.io.ErrorKind.TheVariants.{InvalidData};
    ghost use Rattle.store_trace.specs.declared.input.LineError.TheVariants.{SaysNothing};

    ghost from_gives = { λ error e. (e ≡ SaysNothing) ↔ (error_kind error ≡ InvalidData) };

    fn from(error: io::Error) -> LineError {
        match error.kind() {
            ErrorKind::InvalidData => LineError::SaysNothing,
            _ => LineError::Io(error),
        }
    }
}

impl<T: Drop> From<AllocFailed<T>> for LineError {
    ghost use Rattle.store_trace.specs.declared.input.LineError.TheVariants.{SaysNothing};

    ghost from_gives = { λ _ e. e ≢ SaysNothing };

    fn from(error: AllocFailed<T>) -> LineError {
        LineError::Io(io::Error::from(error))
    }
}

// A decimal number below 2^32, without a sign.
fn decimal(word: &str) -> Option<u32>
    ensures { ReadsBelow (2 ^ 32) word.now result }
{
    if word.starts_with('+') {
        return None;
    }
    word.parse::<u32>().ok()
}

// The numbers of a line, with blanks between them.
fn numbers_of(heap: Global, line: &str) -> Result<Vec<u32>, LineError> {
    let mut numbers = Vec::new(heap);
    for word in line.split_whitespace() {
        let number = decimal(word).ok_or(LineError::SaysNothing)?;
        numbers.push(number)?;
    }
    Ok(numbers)
}

// A number as a rank.
fn rank_of(number: u32) -> Option<u16>
    ensures { SomeIff result (number < 512) number }
{
    u16::try_from(number).ok().filter(|rank| *rank < RANKS)
}

// The set of some ranks; none where one of them is no rank.
fn set_of(ranks: &[u32]) -> Option<RankSet>
    ensures { SomeIff (option_map number result) (AreRanks ranks.now) (set_of ranks.now) }
{
    let mut set = RankSet::empty();
    for rank in ranks {
        set.insert(rank_of(*rank)?);
    }
    Some(set)
}

// The write that the numbers of a line say: a number, and then ranks.
fn write_of(numbers: &[u32]) -> Option<Slot<RankSet>>
    ensures { SaysWrite numbers.now result }
{
    let (number, ranks) = numbers.split_first()?;
    Some(Slot {
        key: set_of(ranks)?,
        number: *number,
    })
}

// The number of slots that the numbers of a line say.
fn slots_of(numbers: &[u32]) -> Option<usize>
    ensures { result ≡ only_number numbers.now }
{
    match numbers {
        [slots] => Some(*slots as usize),
        _ => None,
    }
}

// What was taken in so far.
#[derive(Drop)]
struct Reading {
    slots: Option<usize>,
    writes: Vec<Slot<RankSet>>,
    // The line that comes next: counted here, since an input without a number of slots is named by the line after its last.
    line: u64,
}

impl Reading {
    // Takes in the numbers of a line: first the number of slots, and then writes. Which of them is seen at each line, since any number of comments
    // and blank lines may stand before the first.
    fn take(&mut self, numbers: &[u32]) -> Result<(), LineError>
        ensures ok { OnOk result (Took numbers.now self.old.slots self.new.slots self.old.writes.items self.new.writes.items true) }
        ensures nothing { IsErrOf result LineError.SaysNothing → Took numbers.now self.old.slots self.new.slots self.old.writes.items self.new.writes.items false }
        ensures line { self.new.line ≡ self.old.line }
    {
        match self.slots {
            None => self.slots = Some(slots_of(numbers).ok_or(LineError::SaysNothing)?),
            Some(_) => {
                let write = write_of(numbers).ok_or(LineError::SaysNothing)?;
                self.writes.push(write)?;
            }
        }
        Ok(())
    }

    // Takes in a line, passing over comments and blank lines.
    fn take_line(&mut self, heap: Global, line: &str) -> Result<(), LineError> {
        if line.starts_with('#') {
            return Ok(());
        }
        let numbers = numbers_of(heap, line)?;
        if numbers.is_empty() {
            return Ok(());
        }
        self.take(&numbers)
    }

    // Takes in line after line, to the end of the input.
    fn take_input(&mut self, rt: &(impl Input + AllocGlobal)) -> Result<(), LineError> {
        for line in rt.lines(rt.alloc()) {
            let line = line?;
            self.take_line(rt.alloc(), line.as_str())?;
            self.line = self.line.saturating_add(1);
        }
        Ok(())
    }

    // The trace that was read.
    fn close(self, end: Result<(), Malformed>) -> Result<Trace, Malformed>
        ensures trace { IfOk result (λ t. (Some t.slots ≡ self.slots) × (t.writes ≡ self.writes) × (t.end ≡ end)) }
        ensures none { IfErr result (λ e. (self.slots ≡ None) × (e ≡ Malformed.NoSlots self.line)) }
    {
        let slots = self.slots.ok_or(Malformed::NoSlots { line: self.line })?;
        Ok(Trace {
            slots,
            writes: self.writes,
            end,
        })
    }
}

// Reads a trace from standard input, up to its first line that is no write. An input that cannot be read is an error; a malformed line is an answer.
pub(crate) fn read_trace(rt: &(impl Input + AllocGlobal)) -> io::Result<Result<Trace, Malformed>> {
    let mut reading = Reading {
        slots: None,
        writes: Vec::new(rt.alloc()),
        line: 1,
    };
    let end = match reading.take_input(rt) {
        Ok(()) => Ok(()),
        Err(LineError::SaysNothing) => Err(Malformed::NoWrite { line: reading.line }),
        Err(LineError::Io(error)) => return Err(error),
    };
    Ok(reading.close(end))
}
