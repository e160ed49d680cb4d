// The answers about pages and records as a code and six numbers.
ghost use Rattle.std.specs.Prelude.{◌≡◌, ℕ, List};
ghost use Rattle.bridge.specs.Told.{good_told, refused_told, told_by, layout_parts, reading_parts, checked_parts, lowered_parts, angle_parts};

use crate::PARTS;
use ask::Angle;
use bits::to_bits;
use drawing::Checked;
use layout::Layout;
use lowering::Lowered;
use reader::Reading;
use refusal::Refusal;

// A code and six numbers, as the C interface has every answer.
#[derive(Clone, Copy)]
pub struct Told {
    pub code: u64,
    pub parts: [u64; PARTS],
}

// A good answer, by its parts.
pub(crate) fn good(parts: [u64; PARTS]) -> Told
    ensures { result ≡ good_told parts }
{
    Told { code: 0, parts }
}

// A refusal, by its number and its place.
pub(crate) fn refused(why: Refusal) -> Told
    ensures { result ≡ refused_told why }
{
    let place = why.place as u64;
    Told {
        code: why.number as u64,
        parts: [place, 0, 0, 0, 0, 0],
    }
}

// Tells it: the code is answered, and the numbers are written.
pub(crate) fn tell(told: Told, out: &mut [u64; PARTS]) -> u64
    ensures { record { code = result; parts = out.new } ≡ told }
{
    let parts = told.parts;
    *out = parts;
    told.code
}

// An answer that tells six numbers where it is good.
pub(crate) trait Parts: Copy {
    ghost parts: { Self → List ℕ };

    // The numbers.
    fn parts(self) -> [u64; PARTS]
        ensures { result ≡ parts self };
}

// What is told: the numbers of a good answer, or the refusal.
pub(crate) fn answer<T: Parts>(r: Result<T, Refusal>) -> Told
    ensures { result ≡ told_by T.parts r }
{
    match r {
        Ok(x) => good(x.parts()),
        Err(why) => refused(why),
    }
}

// A layout, and two numbers more.
pub(crate) fn layout_parts(l: Layout, e: u64, f: u64) -> [u64; PARTS]
    ensures { result ≡ layout_parts l e f }
{
    [
        l.points as u64,
        l.circles as u64,
        l.arcs as u64,
        l.stage.number() as u64,
        e,
        f,
    ]
}

// A reading.
impl Parts for Reading {
    ghost parts = { reading_parts };

    fn parts(self) -> [u64; PARTS] {
        let Reading {
            instructions,
            guesses,
            end,
        } = self;
        [instructions as u64, guesses as u64, end as u64, 0, 0, 0]
    }
}

// What the check counts.
impl Parts for Checked {
    ghost parts = { checked_parts };

    fn parts(self) -> [u64; PARTS] {
        [
            self.points as u64,
            self.circles as u64,
            self.arcs as u64,
            self.rows as u64,
            0,
            0,
        ]
    }
}

// A lowering.
impl Parts for Lowered {
    ghost parts = { lowered_parts };

    fn parts(self) -> [u64; PARTS] {
        layout_parts(self.layout, self.next as u64, self.rows as u64)
    }
}

// An angle: 1 or 2, and the bits of its number.
impl Parts for Angle {
    ghost parts = { angle_parts };

    fn parts(self) -> [u64; PARTS] {
        match self {
            Angle::Degrees(x) => [1, to_bits(x), 0, 0, 0, 0],
            Angle::Radians(x) => [2, to_bits(x), 0, 0, 0, 0],
        }
    }
}
