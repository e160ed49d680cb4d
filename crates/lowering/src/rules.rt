// The rows: for each rule, in order, the ids of what its labels name.
ghost use Rattle.std.specs.Prelude.{◌≡◌, ◌+◌, ◌≤◌, ◌<◌, length};
ghost use Rattle.layout.specs.Slots.{ids_end};
ghost use Rattle.layout.specs.Push.{over, onward};
ghost use Rattle.record.specs.Record.{most_records};
ghost use Rattle.row.specs.Row.{most_ids, encode_row};
ghost use Rattle.lowering.specs.Lower.{onto};
ghost use Rattle.lowering.specs.Sketch.{span_by, span_ids, ids_by, row_by};
ghost use Rattle.lowering.specs.Steps.{names_at, line_in, sketch_in, first_at, Placeable, Added, Sayable, Begins, bytes_if, Writing, bytes_by, Writable};

use crate::sheet::Sheet;
use crate::spans::{first_slots, span_of};
use kinds::{FIRST_RULE, LABELS, LAST_RULE, NEEDS, cell_of};
use names::NAMES;
use names::labels::kind_at;
use record::decode::decode_record;
use record::{MOST, PLACES, SIZE};
use row::{ROW, Row, encode_row};
use store::put;

// Puts so many ids, rising from one on, from a place on. Layout has the same for its slots: no public function asks anything of its caller.
#[tactic(auto, using(layout::proofs::Storing::one_more, layout::proofs::Storing::all_put))]
fn number(out: &mut [u32; 8], at: usize, next: u32, count: usize)
    requires { (at + count ≤ length out.old) × (next + count ≤ ids_end) }
    ensures { out.new ≡ over out.old at (onward next count) }
{
    for i in 0..count {
        out[at + i] = next + i as u32;
    }
}

// Record i, and what its row is made of if it is a rule: the names of all labels, the first slot of each shape, and the id of the first slot
// of all.
#[derive(Clone, Copy)]
struct Line<'a> {
    records: &'a [u8],
    names: &'a [u16; NAMES],
    firsts: &'a [u16; MOST],
    next: u32,
    i: usize,
    ghost inside: { i < most_records },
}

impl Line<'_> {
    // Puts the ids of what a name stands for, by the code of its place and its rule's third byte, behind the first m, and tells how many they are then.
    #[tactic(auto, using(layout::proofs::Onward::length_onward))]
    fn add_name(&self, code: u8, third: u8, name: u16, out: &mut [u32; 8], m: usize) -> usize
        requires { (length out.old ≡ most_ids) × Placeable (first_at self.now.firsts.now) self.now.next (span_by code third name) × (m + length (span_ids (first_at self.now.firsts.now) self.now.next (span_by code third name)) ≤ most_ids) }
        ensures { Added (span_ids (first_at self.now.firsts.now) self.now.next (span_by code third name)) out.old m result out.new }
    {
        let s = span_of(code, third, name as usize);
        let id = self.next + ((self.firsts[s.shape] as u32) + (s.first as u32));
        number(out, m, id, s.count);
        m + s.count
    }

    // Puts the ids that it names into a row's eight, and tells how many they are.
    fn row_ids(&self, kind: u8, third: u8, out: &mut [u32; 8]) -> usize
        requires { Sayable (first_at self.now.firsts.now) self.now.next kind third (names_at self.now.names.now kind self.now.i) × (length out.old ≡ most_ids) }
        ensures { Begins (ids_by (first_at self.now.firsts.now) self.now.next kind third (names_at self.now.names.now kind self.now.i)) out.old result out.new }
    {
        let n = cell_of(kind, LABELS) as usize;
        let mut m = 0;
        for q in 0..n {
            let code = cell_of(kind, NEEDS + q);
            m = self.add_name(code, third, self.names[self.i * PLACES + q], out, m);
        }
        m
    }

    // Its row.
    fn row(&self) -> [u8; ROW]
        requires { Sayable (first_at self.now.firsts.now) self.now.next (line_in self.now.records.now self.now.names.now self.now.i).kind (line_in self.now.records.now self.now.names.now self.now.i).third (line_in self.now.records.now self.now.names.now self.now.i).names }
        ensures { result ≡ encode_row (row_by (first_at self.now.firsts.now) self.now.next (line_in self.now.records.now self.now.names.now self.now.i)) }
    {
        let r = decode_record(self.records, self.i);
        let mut out = [0u32; 8];
        let m = self.row_ids(r.kind, r.third, &mut out);
        encode_row(Row {
            kind: r.kind,
            third: r.third,
            count: m as u8,
            ids: out,
            bits: r.x,
        })
    }

    // Writes its row, if it is a rule, at a place, and tells the place after it.
    fn write_row(&self, rows: &mut [u8], at: usize) -> usize
        requires { Writing (first_at self.now.firsts.now) self.now.next (line_in self.now.records.now self.now.names.now self.now.i) rows.old at }
        ensures { Added (bytes_if (first_at self.now.firsts.now) self.now.next (line_in self.now.records.now self.now.names.now self.now.i)) rows.old at result rows.new }
    {
        let kind = kind_at(self.records, self.i);
        if (FIRST_RULE..=LAST_RULE).contains(&kind) {
            let row = self.row();
            put(rows, at, &row);
            return at + ROW;
        }
        at
    }
}

// Writes the rows of all rules, in order.
pub(crate) fn fill_rows(sheet: &Sheet, names: &[u16; NAMES], next: u32, rows: &mut [u8])
    requires { Writable (sketch_in sheet.now.records.now names.now) next rows.old }
    ensures { rows.new ≡ onto rows.old (bytes_by next (sketch_in sheet.now.records.now names.now)) }
{
    let records = sheet.records;
    let mut firsts = [0u16; MOST];
    first_slots(sheet, &mut firsts);
    let mut at = 0;
    for i in 0..records.len() / SIZE {
        let line = Line {
            records,
            names,
            firsts: &firsts,
            next,
            i,
        };
        at = line.write_row(rows, at);
    }
}
