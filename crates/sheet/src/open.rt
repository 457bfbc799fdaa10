// A sheet as it is read: tables of fixed size.
use crate::bounded::Bounded;
use crate::claims::Claims;
use crate::coefficients::Coefficients;
use crate::gate::Declared;
use arrayvec::ArrayVec;

// The labels of a word's bits, from position 0, and whether it was closed.
#[derive(Clone, Copy)]
pub struct Word {
    bits: Bounded<u16, 32>,
    closed: bool,
}

// An open sheet: what a netlist declares, by labels. A word stands at its number once it was opened.
#[derive(Drop)]
pub struct OpenSheet {
    pub(crate) kind: Option<Coefficients>,
    pub(crate) inputs: ArrayVec<u16, 512>,
    pub(crate) gates: ArrayVec<Declared, 512>,
    pub(crate) words: [Option<Word>; 16],
    pub(crate) claims: Claims,
}

impl OpenSheet {
    ghost use Rattle.std.specs.Prelude.{◌≡◌};
    ghost use Rattle.sheet.specs.Sheets.{sheet_of, blank as blank_sheet};

    // A sheet without anything on it, and of no kind.
    pub fn blank() -> OpenSheet
        ensures { sheet_of result ≡ blank_sheet }
    {
        OpenSheet {
            kind: None,
            inputs: ArrayVec::new(),
            gates: ArrayVec::new(),
            words: Default::default(),
            claims: Claims::none(),
        }
    }
}
