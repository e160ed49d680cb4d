// A listing, which is printed whole: what a reading gave, and a line for each record.
ghost use Rattle.rail.specs.Rail.{Printed};
ghost use Rattle.answers.specs.Steps.{listed_by};

use rail::{Piece, Rail};
use reader::Reading;
use record::SIZE;
use refusal::Refusal;

// What a reading gave, over its text and the bytes of its records.
#[derive(Clone, Copy)]
struct Listing<'a> {
    text: &'a [u8],
    reading: Result<Reading, Refusal>,
    records: &'a [u8],
}

impl Piece for Listing<'_> {
    ghost bytes = { λ l. listed_by l.reading l.text.now l.records.now };

    fn add(&self, rail: &mut Rail) {
        lines::first_line(self.reading, rail);
        for i in 0..self.records.len() / SIZE {
            lines::record_line(self.text, self.records, i, rail);
        }
    }
}

// Prints a listing where there is room for all of it.
pub(crate) fn print(text: &[u8], reading: Result<Reading, Refusal>, records: &[u8], rail: &mut Rail)
    ensures { Printed rail.old (listed_by reading text.now records.now) rail.new }
{
    let listing = Listing {
        text,
        reading,
        records,
    };
    rail.whole(&listing);
}
