// The words of each line, added one after the other.
ghost use Rattle.std.specs.Prelude.{◌≡◌, [], ◌∷◌, ◌++◌};
ghost use Rattle.ground.specs.Lists.{up_to};
ghost use Rattle.print.specs.Print.{decimal_of};
ghost use Rattle.kinds.specs.Kinds.{kind_at};
ghost use Rattle.record.specs.Entry.{named, entry_of};
ghost use Rattle.rail.specs.Words.{newline, spaced};
ghost use Rattle.lines.specs.Lines.{third_word, third_of, numbers_of, good_line, refused_line, first_line, line_of};
ghost use Rattle.rail.specs.Rail.{Added};

use rail::{Piece, Rail};
use reader::Reading;
use record::{Record, View};
use refusal::Refusal;

// The first of the words that a third byte, which may be any, may stand for (`third_word`).
const FIRST: u8 = 1;

// The first line of a listing.
#[derive(Clone, Copy)]
pub(crate) struct FirstLine(pub(crate) Result<Reading, Refusal>);

impl Piece for FirstLine {
    ghost bytes = { λ l. first_line l.0 };

    fn add(&self, rail: &mut Rail) {
        match self.0 {
            Ok(read) => good_line(read.instructions, read.guesses, read.end, rail),
            Err(refusal) => refused_line(refusal, rail),
        }
    }
}

// A record's line.
#[derive(Clone, Copy)]
pub(crate) struct RecordLine<'a> {
    pub(crate) text: &'a [u8],
    pub(crate) record: Record,
}

impl Piece for RecordLine<'_> {
    ghost bytes = { λ l. line_of (entry_of l.text.now l.record) };

    fn add(&self, rail: &mut Rail) {
        let r = self.record;
        opening(self.text, r, rail);
        from_third(r.kind, r.third, r.x, r.y, rail);
    }
}

// Adds a word and a number.
pub(crate) fn counted(name: &[u8], n: u64, rail: &mut Rail)
    ensures { Added rail.old (spaced (name.now ∷ decimal_of n ∷ [])) rail.new }
{
    rail.word(name);
    rail.decimal_word(n);
}

// The line of a good reading.
fn good_line(instructions: usize, guesses: usize, end: usize, rail: &mut Rail)
    ensures { Added rail.old (good_line instructions guesses end) rail.new }
{
    rail.add(b"instructions");
    rail.decimal_word(instructions as u64);
    counted(b"guesses", guesses as u64, rail);
    counted(b"end", end as u64, rail);
    rail.add(b"\n");
}

// The line of a refusal.
pub(crate) fn refused_line(refusal: Refusal, rail: &mut Rail)
    ensures { Added rail.old (refused_line refusal) rail.new }
{
    rail.add(b"refused");
    rail.decimal_word(refusal.number as u64);
    rail.decimal_word(refusal.place as u64);
    rail.add(b"\n");
}

// Adds a blank and label q of a record, as far as it lies in the text; an empty one past the last.
fn label_word(text: &[u8], r: Record, q: usize, rail: &mut Rail)
    ensures { Added rail.old (spaced (named text.now r q ∷ [])) rail.new }
{
    let v = r
        .labels
        .get(q)
        .copied()
        .unwrap_or(View { start: 0, len: 0 });
    let rest = &text[v.start.min(text.len())..];
    rail.word(&rest[..v.len.min(rest.len())]);
}

// Adds a record's kind and its labels.
fn opening(text: &[u8], r: Record, rail: &mut Rail)
    ensures { Added rail.old (decimal_of r.kind ++ spaced (up_to r.count (named text.now r))) rail.new }
{
    rail.decimal(r.kind as u64);
    for q in 0..r.count as usize {
        label_word(text, r, q, rail);
    }
}

// Adds the word of a record's third byte.
fn third_word(number: u8, third: u8, rail: &mut Rail)
    ensures { Added rail.old (spaced (third_word number third ∷ [])) rail.new }
{
    if number == kinds::ANGLE {
        rail.word(if third == FIRST { b"deg" } else { b"rad" });
    } else {
        rail.word(if third == FIRST { b"x" } else { b"y" });
    }
}

// Adds the line from the numbers on.
fn from_numbers(number: u8, x: u64, y: u64, rail: &mut Rail)
    ensures { Added rail.old (spaced (numbers_of number x y) ++ newline) rail.new }
{
    if number == kinds::NONE {
        return rail.add(b"\n");
    }
    rail.hex_word(x);
    if number == kinds::PAIR {
        rail.hex_word(y);
    }
    rail.add(b"\n");
}

// Adds the line from the third byte's word on.
pub(crate) fn from_third(kind: u8, third: u8, x: u64, y: u64, rail: &mut Rail)
    ensures { Added rail.old (spaced (third_of kind third ++ numbers_of (kind_at kind).number x y) ++ newline) rail.new }
{
    let sort = kinds::cell_of(kind, kinds::SORT);
    if kinds::cell_of(kind, kinds::THIRDS) != kinds::ZERO {
        third_word(sort, third, rail);
    }
    from_numbers(sort, x, y, rail);
}
