// What a name stands for in a row: which slots of a declared shape, and where the shape's slots begin.
ghost use Rattle.std.specs.Prelude.{◌≡◌, ◌≤◌, replicate};
ghost use Rattle.record.specs.Record.{most_records};
ghost use Rattle.record.specs.Decode.{count_of as records_in};
ghost use Rattle.lowering.specs.Sketch.{size_by, center_by, axis_at, span_by, first_in};
ghost use Rattle.lowering.specs.Steps.{kinds_of, first_at};

use crate::sheet::Sheet;
use kinds::{ASSIGNED, NEW_ARC, NEW_CIRCLE, NEW_POINT, ROUND};
use layout::{VARS_PER_ARC, VARS_PER_CIRCLE, VARS_PER_POINT};
use names::labels::kind_at;
use names::read::either;
use names::{SORTS, STEP};
use record::{MOST, SIZE};

// The third byte for y: a record's byte, as `span_by` has it.
const Y: u8 = 2;

// A shape by its record, the first of its slots that are named, and how many.
#[derive(Clone, Copy)]
pub(crate) struct Span {
    pub shape: usize,
    pub first: usize,
    pub count: usize,
}

// How many slots a shape of a kind has.
fn size_by(kind: usize) -> usize
    ensures { result ≡ size_by kind }
{
    if kind == NEW_POINT as usize {
        VARS_PER_POINT
    } else if kind == NEW_CIRCLE as usize {
        VARS_PER_CIRCLE
    } else {
        VARS_PER_ARC
    }
}

// Where the center of a shape of a kind stands among its slots.
fn center_by(kind: usize) -> usize
    ensures { (result ≡ center_by kind) × (result ≤ 4) }
{
    either(kind == NEW_ARC as usize, 4, 0)
}

// x or y in a pair.
fn axis_at(third: u8) -> usize
    ensures { (result ≡ axis_at third) × (result ≤ 1) }
{
    either(third == Y, 1, 0)
}

// What a name stands for, by the code of its place in the table of kinds and the third byte of its rule: x or y of a point or a center, or
// every slot of a shape.
#[tactic(auto, unfolding(crate::specs::Sketch::span_by))]
pub(crate) fn span_of(code: u8, third: u8, name: usize) -> Span
    ensures { result ≡ span_by code third name }
{
    let shape = name / STEP;
    let kind = name % STEP / SORTS;
    if (code == ASSIGNED) | (code == ROUND) {
        return Span {
            shape,
            first: center_by(kind) + axis_at(third),
            count: 1,
        };
    }
    Span {
        shape,
        first: 0,
        count: size_by(kind),
    }
}

// The first slot of each declared shape: points from 0 on, then circles, then arcs.
#[tactic(auto, using(crate::proofs::ids::Firsts::counts_small))]
pub(crate) fn first_slots(sheet: &Sheet, firsts: &mut [u16; MOST])
    requires { firsts.old ≡ replicate most_records 0 }
    ensures { first_at firsts.new ≡ first_in (kinds_of sheet.now.records.now) (records_in sheet.now.records.now) }
{
    let records = sheet.records;
    let circle = sheet.points * VARS_PER_POINT;
    let arc = circle + sheet.circles * VARS_PER_CIRCLE;
    let mut at = [0u16, 0u16, circle as u16, arc as u16];
    for i in 0..records.len() / SIZE {
        let kind = kind_at(records, i);
        if (NEW_POINT..=NEW_ARC).contains(&kind) {
            let k = kind as usize;
            let place = at[k];
            let then = place + (size_by(k) as u16);
            firsts[i] = place;
            at[k] = then;
        }
    }
}
