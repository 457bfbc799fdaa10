// Refusals: which of the seventeen listed faults a call found, at which place, in which layer.
#![tactic(auto)]

ghost use Rattle.std.specs.Prelude.{◌≡◌, ◌↔◌, ◌==◌, IsTrue, Some};
ghost use Rattle.refusal.specs.Numbers.{number_of, word_of, text_of};

use std::error::Error;
use std::fmt;

// What is wrong: one case for each numbered refusal, with its number.
#[derive(Clone, Copy, PartialEq, Eq, Hash, Debug)]
pub enum Fault {
    // The bytes end inside a command or before END.
    Truncated = 1,
    // A command byte that is not listed.
    UnknownCommand = 2,
    // A command that is not allowed in its section.
    OutOfSection = 3,
    // A kind byte, size or modulus that makes no kind.
    BadKind = 4,
    // One signal, bit, claim or term too many.
    TooMany = 5,
    // A label declared before, a word opened before, or a label already in this word.
    Duplicate = 6,
    // A word number that cannot be opened, or a term's word that is not closed before.
    BadWord = 7,
    // A coefficient that is not a code of the kind.
    NotACode = 8,
    // An operand or a bit that names no signal.
    UnknownSignal = 9,
    // Bytes after END.
    TrailingBytes = 10,
    // A gate that gets no rank.
    NoRank = 11,
    // A pose of a claim number that the sheet lacks.
    UnknownClaim = 12,
    // A pose while a claim is open.
    ClaimOpen = 13,
    // A ticket that does not fit the open claim, or no claim is open.
    WrongTicket = 14,
    // A pose when 65,535 claims have been posed.
    TallyFull = 15,
    // A rank set in an assignment that is no input.
    NotAnInput = 16,
    // A store over no slots, or over more than it takes.
    BadSlots = 17,
}

// Where in the verifier a fault was found.
#[derive(Clone, Copy, PartialEq, Eq, Debug)]
pub enum Layer {
    File,
    Order,
    Bench,
    Simulate,
    Store,
    Kind,
}

// What a call refuses. What the place counts depends on the fault: a byte offset, a gate, a claim, a rank, slots or a size.
#[derive(Clone, Copy, PartialEq, Eq, Debug)]
pub struct Refusal {
    pub fault: Fault,
    pub place: usize,
    pub layer: Layer,
}

impl Fault {
    // The number by which users know the fault; no other fault has it. A method and no `From`, which could not promise that.
    pub fn number(self) -> u8
        ensures value { result ≡ number_of self }
        ensures own { (other : Fault) → number_of other ≡ result → other ≡ self }
    {
        self as u8
    }
}

impl Layer {
    // The word by which users know the layer.
    pub fn word(self) -> &'static str
        ensures { result.now ≡ word_of self }
    {
        match self {
            Layer::File => "file",
            Layer::Order => "order",
            Layer::Bench => "bench",
            Layer::Simulate => "simulate",
            Layer::Store => "store",
            Layer::Kind => "kind",
        }
    }
}

impl Refusal {
    // Whether this is the fault that was found. Faults are the same where their numbers are.
    pub fn is(&self, fault: Fault) -> bool
        ensures decides { IsTrue result ↔ (self.now.fault ≡ fault) }
        ensures numbers { result ≡ (number_of self.now.fault == number_of fault) }
    {
        self.fault == fault
    }
}

// A layer is printed as its word. By hand, as the line of a refusal is, since a derive promises no text.
impl fmt::Display for Layer {
    ghost output = { λ l. Some (word_of l) };

    fn fmt<W: fmt::Write>(&self, f: &mut fmt::Formatter<W>) -> fmt::Result {
        f.write_str(self.word())
    }
}

// The line that a program prints of a refusal.
impl fmt::Display for Refusal {
    ghost output = { λ r. Some (text_of r) };

    fn fmt<W: fmt::Write>(&self, f: &mut fmt::Formatter<W>) -> fmt::Result {
        let Refusal {
            fault,
            place,
            layer,
        } = *self;
        let number = fault.number();
        write!(f, "refused {number} at {place} layer {layer}")
    }
}

// So `?` passes a refusal on where a program collects errors.
impl Error for Refusal {}
