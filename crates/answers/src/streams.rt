// A page read from a stream, and its answer written to another.
ghost use Rattle.std.specs.Prelude.{OnOk, true};
ghost use Rattle.rail.specs.Rail.{Prints};
ghost use Rattle.answers.specs.Answers.{answer_of};
ghost use Rattle.answers.specs.Responds.{Responds};

use super::{LONGEST, Way};
use std::io;
use std::io::{Read, Write};

// The most bytes that are read: more than a page may have.
const MOST: usize = 65_536;

// Writes what is asked of a page, by the function that is named for it; the listing by the plain reading has none of its own.
#[tactic(auto, unfolding(crate::specs::Answers::answer_of))]
fn tell(text: &[u8], way: Way, out: &mut [u8]) -> Option<usize>
    ensures { Prints true out.old (Some 0) (answer_of way text.now) result out.new }
{
    match way {
        Way::Plain => super::answer(text, way, out),
        Way::Whole => super::listing(text, out),
        Way::Check => super::checking(text, out),
        Way::Rows => super::rows(text, out),
    }
}

// Reads a page, and writes what is asked of it, or that the answer is too long. Of a longer input than a page may be, no more is read
// than shows that. The way is an enum and no closure, which would ask of its caller that it may be called.
pub fn respond<R: Read, W: Write>(input: &mut R, output: &mut W, way: Way) -> io::Result<()>
    ensures { OnOk result (Responds way (R.remaining input.old) (R.remaining input.new) (W.contents output.old) (W.contents output.new)) }
{
    let mut page = [0u8; MOST];
    let mut out = [0u8; LONGEST];
    let n = stream::read_full(input, &mut page)?;
    match tell(&page[..n], way, &mut out) {
        Some(end) => output.write_all(&out[..end]),
        None => output.write_all(b"answer too long\n"),
    }
}
