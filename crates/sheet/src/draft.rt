// A sheet under construction, with the labels that it has declared.
ghost use Rattle.std.specs.Prelude.{◌≡◌};
ghost use Rattle.store.specs.Tables.{contents, room};
ghost use Rattle.sheet.specs.Index.{index};

use crate::open::OpenSheet;
use refusal::Fault;
use store::labels::Labels;
use store::slot::Slot;

// The labels are those of the inputs, each with its place counted from 1, since 0 is the number of a label that does not stand.
#[derive(Drop)]
pub struct Draft<'a> {
    sheet: OpenSheet,
    labels: Labels<'a>,
    ghost large: { room labels ≡ 512 },
    ghost indexed: { contents labels ≡ index sheet.inputs.items },
}

impl<'a> Draft<'a> {
    ghost use Rattle.std.specs.Prelude.{◌≡◌};
    ghost use Rattle.sheet.specs.Sheets.{blank as blank_sheet};
    ghost use Rattle.sheet.specs.Drafts.{drafted};

    // A blank sheet, whose labels go into the slots.
    pub fn new(slots: &'a mut [Slot<u16>; 512]) -> Draft<'a>
        ensures { drafted result ≡ blank_sheet }
    {
        Draft {
            sheet: OpenSheet::blank(),
            labels: Labels::new(&mut slots[..]),
        }
    }
}

impl Draft<'_> {
    ghost use Rattle.std.specs.Prelude.{◌≡◌, is_ok, if◌then◌else◌};
    ghost use Rattle.sheet.specs.Sheets.{has};
    ghost use Rattle.sheet.specs.Drafts.{drafted, input_answer, with_input};

    // Whether a label is that of an input.
    fn is_declared(&self, label: u16) -> bool
        ensures { result ≡ has label (drafted self.now).inputs }
    {
        self.labels.read(&label) > 0
    }

    // One input more, or a refusal that changes nothing: of one signal too many, or else of a label declared before.
    pub fn declare_input(&mut self, label: u16) -> Result<(), Fault>
        ensures answer { result ≡ input_answer (drafted self.old) label }
        ensures after { drafted self.new ≡ (if is_ok result then with_input (drafted self.old) label else drafted self.old) }
    {
        if self.sheet.inputs.is_full() {
            return Err(Fault::TooMany);
        }
        if self.is_declared(label) {
            return Err(Fault::Duplicate);
        }
        let place = self.sheet.inputs.len() as u32 + 1;
        // There is a slot for every input, so that the write is granted.
        let _ = self.labels.write(&label, place);
        self.sheet.inputs.push(label);
        Ok(())
    }
}
