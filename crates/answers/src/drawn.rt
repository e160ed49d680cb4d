// A lowering, which is printed whole: what it told, a line for each slot, and a line for each row.
ghost use Rattle.std.specs.Prelude.{◌≡◌, length};
ghost use Rattle.reader.specs.Page.{lines_of};
ghost use Rattle.drawing.specs.Check.{check_of};
ghost use Rattle.rail.specs.Rail.{Printed, Added};
ghost use Rattle.answers.specs.Answers.{drawing_lines};
ghost use Rattle.answers.specs.Steps.{Read, slots_by, lowered_by};

use layout::VARS_PER_ARC;
use lowering::Lowered;
use rail::{Piece, Rail};
use record::MOST;
use refusal::Refusal;
use row::ROW;

// Room for the slots of an arc for each of the most records, and for a row for each.
const SLOTS: usize = MOST * VARS_PER_ARC;

const ROWS: usize = MOST * ROW;

// What lowering told, and what it wrote: an id and a value for each slot, and the bytes of the rows.
#[derive(Drop)]
struct Drawn<'a> {
    told: Result<Lowered, Refusal>,
    ids: &'a [u32],
    values: &'a [f64],
    rows: &'a [u8],
    ghost paired: { length ids.now ≡ length values.now },
}

impl Piece for Drawn<'_> {
    ghost bytes = { λ d. lowered_by d.told d.ids.now d.values.now d.rows.now };

    fn add(&self, rail: &mut Rail) {
        add_slots(self.told, self.ids, self.values, rail);
        for k in 0..self.rows.len() / ROW {
            lines::row_line(self.rows, k, rail);
        }
    }
}

// Adds what lowering told and a line for each slot.
fn add_slots(told: Result<Lowered, Refusal>, ids: &[u32], values: &[f64], rail: &mut Rail)
    requires { length ids.now ≡ length values.now }
    ensures { Added rail.old (slots_by told ids.now values.now) rail.new }
{
    lines::lowered_line(told, rail);
    for (id, value) in ids.iter().zip(values) {
        lines::slot_line(*id, *value, rail);
    }
}

// Lowers the drawing of a page that was read, from id 0, and prints what came of it where there is room for all.
pub(crate) fn print(text: &[u8], records: &[u8], rail: &mut Rail)
    requires { Read text.now records.now }
    ensures { Printed rail.old (drawing_lines (check_of (lines_of text.now)) (lines_of text.now)) rail.new }
{
    let mut ids = [0u32; SLOTS];
    let mut values = [0.0; SLOTS];
    let mut rows = [0u8; ROWS];
    let told = lowering::lower(text, records, 0, &mut ids, &mut values, &mut rows);
    let Ok(lowered) = told else {
        return lines::lowered_line(told, rail);
    };
    let slots = lowered.next as usize;
    let drawn = Drawn {
        told,
        ids: &ids[..slots],
        values: &values[..slots],
        rows: &rows[..lowered.rows * ROW],
    };
    rail.whole(&drawn);
}
