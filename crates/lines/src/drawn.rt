// The words of the lines that tell of a drawing, added one after the other.
ghost use Rattle.std.specs.Prelude.{◌≡◌, [], ◌∷◌, ◌++◌, get_or};
ghost use Rattle.ground.specs.Lists.{up_to};
ghost use Rattle.print.specs.Print.{decimal_of};
ghost use Rattle.rail.specs.Words.{spaced};
ghost use Rattle.rail.specs.Rail.{Added};
ghost use Rattle.row.specs.Row.{ids_in, meant};
ghost use Rattle.lines.specs.Drawn.{tally_line, checked_line, lowered_line, slot_line, row_line};

use super::words;
use drawing::Checked;
use lowering::Lowered;
use rail::{Piece, Rail};
use refusal::Refusal;
use row::{MOST_IDS, Row};

// What the check told.
#[derive(Clone, Copy)]
pub(crate) struct CheckedLine(pub(crate) Result<Checked, Refusal>);

impl Piece for CheckedLine {
    ghost bytes = { λ l. checked_line l.0 };

    fn add(&self, rail: &mut Rail) {
        match self.0 {
            Ok(found) => tally_line(
                b"passed",
                found.points,
                found.circles,
                found.arcs,
                b"rows",
                found.rows as u64,
                rail,
            ),
            Err(refusal) => words::refused_line(refusal, rail),
        }
    }
}

// What lowering told.
#[derive(Clone, Copy)]
pub(crate) struct LoweredLine(pub(crate) Result<Lowered, Refusal>);

impl Piece for LoweredLine {
    ghost bytes = { λ l. lowered_line l.0 };

    fn add(&self, rail: &mut Rail) {
        match self.0 {
            Ok(lowered) => tally_line(
                b"lowered",
                lowered.layout.points,
                lowered.layout.circles,
                lowered.layout.arcs,
                b"next",
                lowered.next as u64,
                rail,
            ),
            Err(refusal) => words::refused_line(refusal, rail),
        }
    }
}

// A slot's line.
#[derive(Clone, Copy)]
pub(crate) struct SlotLine {
    pub(crate) id: u32,
    pub(crate) value: f64,
}

impl Piece for SlotLine {
    ghost bytes = { λ l. slot_line l.id l.value };

    fn add(&self, rail: &mut Rail) {
        rail.add(b"slot");
        rail.decimal_word(self.id as u64);
        rail.hex_word(bits::to_bits(self.value));
        rail.add(b"\n");
    }
}

// A row's line.
#[derive(Clone, Copy)]
pub(crate) struct RowLine(pub(crate) Row);

impl Piece for RowLine {
    ghost bytes = { λ l. row_line (meant l.0) };

    fn add(&self, rail: &mut Rail) {
        let r = self.0;
        rail.add(b"row ");
        row_opening(r, rail);
        words::from_third(r.kind, r.third, r.bits, 0, rail);
    }
}

// The line of a word, the counts of shapes, and one number more with its name.
fn tally_line(
    name: &[u8],
    points: usize,
    circles: usize,
    arcs: usize,
    last: &[u8],
    n: u64,
    rail: &mut Rail,
)
    ensures { Added rail.old (tally_line name.now points circles arcs last.now n) rail.new }
{
    rail.add(name);
    words::counted(b"points", points as u64, rail);
    words::counted(b"circles", circles as u64, rail);
    words::counted(b"arcs", arcs as u64, rail);
    words::counted(last, n, rail);
    rail.add(b"\n");
}

// How many ids a row has, eight at most.
fn ids_in(r: Row) -> usize
    ensures { result ≡ ids_in r }
{
    (r.count as usize).min(MOST_IDS)
}

// Adds a row's kind and its ids.
fn row_opening(r: Row, rail: &mut Rail)
    ensures { Added rail.old (decimal_of r.kind ++ spaced (up_to (ids_in r) (λ q. decimal_of (get_or r.ids q 0)))) rail.new }
{
    rail.decimal(r.kind as u64);
    for q in 0..ids_in(r) {
        rail.decimal_word(r.ids[q] as u64);
    }
}
