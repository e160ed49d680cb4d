// Records over a text that are laid out.
ghost use Rattle.std.specs.Prelude.{◌≡◌, true, false, ◌<◌, MatchOption};
ghost use Rattle.kinds.specs.Kinds.{kind_at};
ghost use Rattle.record.specs.Decode.{count_of as records_in, decode_at};
ghost use Rattle.record.specs.Entry.{entry_at, label_no};
ghost use Rattle.record.specs.Laid.{laid_out};
ghost use Rattle.names.specs.Labels.{drawn};

use crate::labels::kind_of;
use little::u16_of;
use record::{SIZE, formed};

// A text, and the records of its list.
#[derive(Clone, Copy)]
pub(crate) struct Laid<'a> {
    pub text: &'a [u8],
    pub records: &'a [u8],
    ghost laid: { laid_out text.now records.now ≡ true },
}

impl<'a> Laid<'a> {
    // These records over this text, where they are laid out.
    pub(crate) fn of(text: &'a [u8], records: &'a [u8]) -> Option<Self>
        ensures { MatchOption result (laid_out text.now records.now ≡ false) (λ page. (page.text.now ≡ text.now) × (page.records.now ≡ records.now)) }
    {
        if !formed::laid_out(text, records) {
            return None;
        }
        Some(Laid { text, records })
    }

    // How many records there are.
    pub(crate) fn count(&self) -> usize
        ensures { result ≡ records_in self.now.records.now }
    {
        self.records.len() / SIZE
    }

    // The kind of a record that is there.
    pub(crate) fn kind(&self, i: usize) -> u8
        requires { i < records_in self.now.records.now }
        ensures { result ≡ (decode_at self.now.records.now i).kind }
    {
        kind_of(self.records, i)
    }

    // Label q of a record.
    pub(crate) fn label(&self, i: usize, q: usize) -> &'a [u8]
        requires { (i < records_in self.now.records.now) × (q < (kind_at (decode_at self.now.records.now i).kind).labels) }
        ensures { result.now ≡ label_no (entry_at (drawn self.now.text.now self.now.records.now) i) q }
    {
        let k = i * SIZE + 4 + q * 4;
        let m = k + 2;
        let start = u16_of(self.records[k], self.records[k + 1]) as usize;
        let end = start + (u16_of(self.records[m], self.records[m + 1]) as usize);
        &self.text[start..end]
    }
}
