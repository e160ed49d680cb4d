// The whole answer to a page, written at the start of a lent buffer: its listing, whether its drawing passes the check, or its slots
// and rows. A buffer without room for the answer stays as it was.
#![tactic(auto)]

mod drawn;
mod listed;
pub mod streams;

ghost use Rattle.std.specs.Prelude.{true};
ghost use Rattle.reader.specs.Page.{Reads};
ghost use Rattle.rail.specs.Rail.{Prints, Printed};
ghost use Rattle.answers.specs.Answers.{listing_of, checking_of, lowering_of, answer_of};
ghost use Rattle.answers.specs.Steps.{whole_by, told_by, Read};

use rail::Rail;
use reader::Reading;
use record::{ROOM, SIZE};
use refusal::Refusal;

// Room for any answer: a byte of the page stands in it at most twice, and a record has less than 100 bytes besides.
pub const LONGEST: usize = 262_144;

// What is asked: the listing by the plain reading or by the whole one, the check, or the slots and rows.
#[derive(Clone, Copy)]
pub enum Way {
    Plain,
    Whole,
    Check,
    Rows,
}

// Reads a page as what is asked of it needs.
fn read(text: &[u8], way: Way, records: &mut [u8]) -> Result<Reading, Refusal>
    ensures { Reads (whole_by way) text.now records.old result records.new }
{
    match way {
        Way::Plain => reader::parse_problem(text, records),
        Way::Whole | Way::Check | Way::Rows => reader::parse_whole(text, records),
    }
}

// Prints what is asked of a page that was read.
fn tell(text: &[u8], way: Way, reading: Result<Reading, Refusal>, records: &[u8], rail: &mut Rail)
    requires { Read text.now records.now }
    ensures { Printed rail.old (told_by way reading text.now) rail.new }
{
    match way {
        Way::Plain | Way::Whole => listed::print(text, reading, records, rail),
        Way::Check => lines::checked_line(drawing::check(text, records), rail),
        Way::Rows => drawn::print(text, records, rail),
    }
}

// Reads a page, and prints what is asked of it.
fn print(text: &[u8], way: Way, rail: &mut Rail)
    ensures { Printed rail.old (answer_of way text.now) rail.new }
{
    let mut records = [0u8; ROOM];
    let reading = read(text, way, &mut records);
    let Ok(counts) = reading else {
        return lines::first_line(reading, rail);
    };
    let n = (counts.instructions + counts.guesses) * SIZE;
    tell(text, way, reading, &records[..n], rail);
}

// Writes what is asked of a page.
pub fn answer(text: &[u8], way: Way, out: &mut [u8]) -> Option<usize>
    ensures { Prints true out.old (Some 0) (answer_of way text.now) result out.new }
{
    let mut rail = Rail {
        buf: out,
        write: true,
        place: Some(0),
    };
    print(text, way, &mut rail);
    rail.place
}

// Writes the listing of a page, which has to be the whole text.
#[tactic(auto, unfolding(crate::specs::Answers::answer_of))]
pub fn listing(text: &[u8], out: &mut [u8]) -> Option<usize>
    ensures { Prints true out.old (Some 0) (listing_of true text.now) result out.new }
{
    answer(text, Way::Whole, out)
}

// Writes whether the drawing of a page passes the check.
#[tactic(auto, unfolding(crate::specs::Answers::answer_of))]
pub fn checking(text: &[u8], out: &mut [u8]) -> Option<usize>
    ensures { Prints true out.old (Some 0) (checking_of text.now) result out.new }
{
    answer(text, Way::Check, out)
}

// Writes the slots and the rows of the drawing of a page, lowered from id 0.
#[tactic(auto, unfolding(crate::specs::Answers::answer_of))]
pub fn rows(text: &[u8], out: &mut [u8]) -> Option<usize>
    ensures { Prints true out.old (Some 0) (lowering_of text.now) result out.new }
{
    answer(text, Way::Rows, out)
}
