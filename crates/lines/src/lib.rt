// The lines that programs print, added to a rail, each whole or not at all: those of a listing, of a check and of a lowering.
#![tactic(auto)]

mod drawn;
mod words;

ghost use Rattle.record.specs.Decode.{decode_at};
ghost use Rattle.record.specs.Entry.{entry_of};
ghost use Rattle.lines.specs.Lines.{first_line, line_of};
ghost use Rattle.row.specs.Row.{decode_row, row_of};
ghost use Rattle.lines.specs.Drawn.{checked_line, lowered_line, slot_line, row_line};
ghost use Rattle.rail.specs.Rail.{Printed};

use drawing::Checked;
use drawn::{CheckedLine, LoweredLine, RowLine, SlotLine};
use lowering::Lowered;
use rail::Rail;
use reader::Reading;
use refusal::Refusal;
use words::{FirstLine, RecordLine};

// Adds the first line of a listing, which tells what a reading gave.
pub fn first_line(reading: Result<Reading, Refusal>, rail: &mut Rail)
    ensures { Printed rail.old (first_line reading) rail.new }
{
    rail.whole(&FirstLine(reading));
}

// Adds the line of record i of a list over a text.
pub fn record_line(text: &[u8], records: &[u8], i: usize, rail: &mut Rail)
    ensures { Printed rail.old (line_of (entry_of text.now (decode_at records.now i))) rail.new }
{
    let record = record::decode::decode_record(records, i);
    rail.whole(&RecordLine { text, record });
}

// Adds the line of what the check told.
pub fn checked_line(checked: Result<Checked, Refusal>, rail: &mut Rail)
    ensures { Printed rail.old (checked_line checked) rail.new }
{
    rail.whole(&CheckedLine(checked));
}

// Adds the line of what lowering told.
pub fn lowered_line(lowered: Result<Lowered, Refusal>, rail: &mut Rail)
    ensures { Printed rail.old (lowered_line lowered) rail.new }
{
    rail.whole(&LoweredLine(lowered));
}

// Adds the line of a slot.
pub fn slot_line(id: u32, value: f64, rail: &mut Rail)
    ensures { Printed rail.old (slot_line id value) rail.new }
{
    rail.whole(&SlotLine { id, value });
}

// Adds the line of row k of a list, and of a row of zeros past the last.
pub fn row_line(rows: &[u8], k: usize, rail: &mut Rail)
    ensures { Printed rail.old (row_line (decode_row (row_of rows.now k))) rail.new }
{
    rail.whole(&RowLine(row::decode_row(rows, k)));
}
