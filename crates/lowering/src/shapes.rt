// The shapes of a drawing with their guesses, pushed through the layout: points, circles, arcs, each in record order.
ghost use Rattle.std.specs.Prelude.{◌≡◌, ◌+◌, ◌*◌, ◌≤◌, ◌<◌, get_or};
ghost use Rattle.std.specs.Result.{result_unwrap_or};
ghost use Rattle.record.specs.Record.{most_records};
ghost use Rattle.record.specs.Decode.{count_of as records_in, decode_at};
ghost use Rattle.names.specs.Cut.{known_parts};
ghost use Rattle.layout.specs.Slots.{empty};
ghost use Rattle.layout.specs.Push.{Push, state, done_of};
ghost use Rattle.lowering.specs.Sketch.{pair_of, circle_of, arc_of, figure_of, of_kind};
ghost use Rattle.lowering.specs.Steps.{kinds_of, numbers_in, laid_in, one_of, pushed_of, stage, laid, Slotted};

use crate::sheet::Sheet;
use bits::from_bits;
use kinds::{NEW_ARC, NEW_CIRCLE, NEW_POINT};
use layout::{Arc, Circle, Layout, Point, Pushed};
use names::labels::kind_at;
use names::read::wide;
use names::{A, B, CENTER, GUESSES, PARTS, RADIUS, WHOLE};
use record::decode::decode_record;
use record::{Record, SIZE};
use refusal::Refusal;

// The shape that record i declares, by the table of the guesses of the parts of all shapes.
#[derive(Clone, Copy)]
struct Declared<'a> {
    records: &'a [u8],
    guesses: &'a [u16; GUESSES],
    i: usize,
    ghost inside: { i < most_records },
}

impl Declared<'_> {
    // The guess of a part of it.
    fn guess(&self, part: usize) -> Record
        requires { part < known_parts }
        ensures { result ≡ decode_at self.now.records.now (get_or self.now.guesses.now (self.now.i * known_parts + part) 0) }
    {
        decode_record(self.records, wide(self.guesses[self.i * PARTS + part]))
    }

    // The pair that a part of it starts at.
    fn pair(&self, part: usize) -> Point
        requires { part < known_parts }
        ensures { result ≡ pair_of (numbers_in self.now.records.now self.now.guesses.now self.now.i) part }
    {
        let guess = self.guess(part);
        Point {
            x: from_bits(guess.x),
            y: from_bits(guess.y),
        }
    }

    // The circle that it is, as it starts.
    fn circle(&self) -> Circle
        ensures { result ≡ circle_of (numbers_in self.now.records.now self.now.guesses.now self.now.i) }
    {
        Circle {
            center: self.pair(CENTER),
            radius: from_bits(self.guess(RADIUS).x),
        }
    }

    // The arc that it is, as it starts.
    fn arc(&self) -> Arc
        ensures { result ≡ arc_of (numbers_in self.now.records.now self.now.guesses.now self.now.i) }
    {
        Arc {
            a: self.pair(A),
            b: self.pair(B),
            center: self.pair(CENTER),
        }
    }

    // Pushes it as a shape of a kind.
    fn push(
        &self,
        kind: u8,
        last: Pushed,
        ids: &mut [u32],
        values: &mut [f64],
    ) -> Result<Pushed, Refusal>
        ensures { Push (figure_of (numbers_in self.now.records.now self.now.guesses.now self.now.i) kind) (state last.layout last.next ids.old values.old) result ids.new values.new }
    {
        let l = last.layout;
        match kind {
            NEW_POINT => l.push(last.next, ids, values, self.pair(WHOLE)),
            NEW_CIRCLE => l.push(last.next, ids, values, self.circle()),
            _ => l.push(last.next, ids, values, self.arc()),
        }
    }

    // Pushes it, if it is of a kind; a push that is refused changes nothing.
    #[tactic(auto, unfolding(layout::specs::Run::run))]
    fn push_if(&self, kind: u8, last: Pushed, ids: &mut [u32], values: &mut [f64]) -> Pushed
        ensures { laid_in result ids.new values.new ≡ pushed_of (numbers_in self.now.records.now self.now.guesses.now) kind (one_of (kinds_of self.now.records.now) kind self.now.i) (laid_in last ids.old values.old) }
    {
        if kind_at(self.records, self.i) != kind {
            return last;
        }
        self.push(kind, last, ids, values).unwrap_or(last)
    }
}

// All shapes that records declare, with the table of the guesses of their parts.
#[derive(Clone, Copy)]
struct Shapes<'a> {
    records: &'a [u8],
    guesses: &'a [u16; GUESSES],
    ghost few: { records_in records.now ≤ most_records },
}

impl Shapes<'_> {
    // Pushes the shapes of a kind, in record order.
    #[tactic(auto, using(crate::proofs::slots::Steps::pushes_turn), unfolding(crate::specs::Sketch::of_kind, layout::specs::Run::run))]
    fn push_all(&self, kind: u8, start: Pushed, ids: &mut [u32], values: &mut [f64]) -> Pushed
        ensures { laid_in result ids.new values.new ≡ pushed_of (numbers_in self.now.records.now self.now.guesses.now) kind (of_kind (kinds_of self.now.records.now) kind (records_in self.now.records.now)) (laid_in start ids.old values.old) }
    {
        let records = self.records;
        let guesses = self.guesses;
        let mut last = start;
        for i in 0..records.len() / SIZE {
            let shape = Declared {
                records,
                guesses,
                i,
            };
            last = shape.push_if(kind, last, ids, values);
        }
        last
    }

    // Pushes the shapes of a kind, and steps to the next stage.
    #[tactic(auto, using(crate::proofs::slots::Steps::staged))]
    fn push_stage(&self, kind: u8, start: Pushed, ids: &mut [u32], values: &mut [f64]) -> Pushed
        ensures { laid_in result ids.new values.new ≡ stage (kinds_of self.now.records.now) (numbers_in self.now.records.now self.now.guesses.now) (records_in self.now.records.now) kind (laid_in start ids.old values.old) }
    {
        step(self.push_all(kind, start, ids, values))
    }
}

// The next stage; one that is refused stays.
fn step(l: Pushed) -> Pushed
    ensures { result ≡ record { layout = result_unwrap_or (done_of l.layout) l.layout; next = l.next } }
{
    Pushed {
        layout: l.layout.done().unwrap_or(l.layout),
        ..l
    }
}

// Fills the slots of a drawing with all points, then all circles, then all arcs, from the next id on, and hands back its layout.
#[tactic(auto, using(crate::proofs::slots::Steps::slotted))]
pub(crate) fn fill_slots(
    sheet: &Sheet,
    guesses: &[u16; GUESSES],
    next: u32,
    ids: &mut [u32],
    values: &mut [f64],
) -> Layout
    ensures { Slotted (laid (kinds_of sheet.now.records.now) (numbers_in sheet.now.records.now guesses.now) (records_in sheet.now.records.now) (state empty next ids.old values.old)) result ids.new values.new }
{
    let shapes = Shapes {
        records: sheet.records,
        guesses,
    };
    let none = Pushed {
        layout: Layout::new(),
        next,
    };
    let points = shapes.push_stage(NEW_POINT, none, ids, values);
    let circles = shapes.push_stage(NEW_CIRCLE, points, ids, values);
    let last = shapes.push_stage(NEW_ARC, circles, ids, values);
    last.layout
}
