// The tests behind the refusals of a layout, and what they are of: counts, sizes and slots.
ghost use Rattle.std.specs.Prelude.{◌≡◌, ◌≤◌, Ok, Err};
ghost use Rattle.layout.specs.Slots.{stage_number, stage_due, size_of, shapes_in, most_shapes, most_slots, slot_count, slot_of, with_one};
ghost use Rattle.layout.specs.Steps.{Small, most_size, reason_of};
ghost use Rattle.layout.specs.Refusals.{impossible, reason_number, push_told, look_told};
ghost use Rattle.refusal.specs.First.{answered};
ghost use Rattle.refusal.specs.Refusal.{refusal};

use crate::{
    IDS_END, Layout, MOST, ShapeKind, Stage, VARS_PER_ARC, VARS_PER_CIRCLE, VARS_PER_POINT,
};
use refusal::Refusal;

// Why a layout refuses, by the numbers of docs/FORMAT.md.
#[derive(Clone, Copy, Debug, PartialEq, Eq)]
pub(crate) enum Reason {
    CannotBe = 20,
    WrongStage = 21,
    Full = 22,
    Short = 23,
    FewIds = 24,
    NoShape = 25,
}

impl From<Reason> for Refusal {
    ghost from_gives = { λ reason r. r ≡ refusal (reason_number (reason_of reason)) 0 };

    fn from(reason: Reason) -> Refusal {
        Refusal {
            number: reason as u8,
            place: 0,
        }
    }
}

impl ShapeKind {
    // The stage at which shapes of this kind are pushed.
    fn due(self) -> Stage
        ensures { stage_number result ≡ stage_due self }
    {
        match self {
            ShapeKind::Point => Stage::Points,
            ShapeKind::Circle => Stage::Circles,
            ShapeKind::Arc => Stage::Arcs,
        }
    }

    // How many slots a shape of this kind has.
    pub(crate) fn size(self) -> usize
        ensures { (result ≡ size_of self) × (result ≤ most_size) }
    {
        match self {
            ShapeKind::Point => VARS_PER_POINT,
            ShapeKind::Circle => VARS_PER_CIRCLE,
            ShapeKind::Arc => VARS_PER_ARC,
        }
    }
}

impl Layout {
    // How many shapes of a kind there are.
    fn count(self, k: ShapeKind) -> usize
        ensures { result ≡ shapes_in k self }
    {
        match k {
            ShapeKind::Point => self.points,
            ShapeKind::Circle => self.circles,
            ShapeKind::Arc => self.arcs,
        }
    }

    // The layout with one more of a kind.
    pub(crate) fn with_one(self, k: ShapeKind) -> Layout
        requires { Small self }
        ensures { result ≡ with_one k self }
    {
        match k {
            ShapeKind::Point => Layout {
                points: self.points + 1,
                ..self
            },
            ShapeKind::Circle => Layout {
                circles: self.circles + 1,
                ..self
            },
            ShapeKind::Arc => Layout {
                arcs: self.arcs + 1,
                ..self
            },
        }
    }

    // How many slots it has.
    fn slots(self) -> usize
        requires { Small self }
        ensures { (result ≡ slot_count self) × (result ≤ most_slots) }
    {
        self.points * VARS_PER_POINT + self.circles * VARS_PER_CIRCLE + self.arcs * VARS_PER_ARC
    }

    // The first slot of shape i of a kind.
    fn slot(self, k: ShapeKind, i: usize) -> usize
        requires { Small self × (i ≤ most_shapes) }
        ensures { result ≡ slot_of k self i }
    {
        match k {
            ShapeKind::Point => i * VARS_PER_POINT,
            ShapeKind::Circle => self.points * VARS_PER_POINT + i * VARS_PER_CIRCLE,
            ShapeKind::Arc => self.points * VARS_PER_POINT
                + self.circles * VARS_PER_CIRCLE
                + i * VARS_PER_ARC,
        }
    }

    // Whether there cannot be such a layout: a count over the most, circles at the points stage, or arcs before the arcs stage.
    pub(crate) fn is_impossible(self) -> bool
        ensures { result ≡ impossible self }
    {
        (MOST < self.points)
            | (MOST < self.circles)
            | (MOST < self.arcs)
            | ((0 < self.circles) & (self.stage < Stage::Circles))
            | ((0 < self.arcs) & (self.stage < Stage::Arcs))
    }

    // Where a shape of a kind goes, or why it does not, given the next id and the lengths of the two slices.
    pub(crate) fn push_place(
        self,
        k: ShapeKind,
        next: u32,
        ids: usize,
        values: usize,
    ) -> Result<usize, Refusal>
        ensures { result ≡ answered reason_number Err (push_told k self next ids values) (Ok (slot_count self)) }
    {
        if self.is_impossible() {
            return Err(Reason::CannotBe.into());
        }
        if self.stage != k.due() {
            return Err(Reason::WrongStage.into());
        }
        if MOST <= self.count(k) {
            return Err(Reason::Full.into());
        }
        let at = self.slots();
        let end = at + k.size();
        if (ids < end) | (values < end) {
            return Err(Reason::Short.into());
        }
        if ((IDS_END - next) as usize) < k.size() {
            return Err(Reason::FewIds.into());
        }
        Ok(at)
    }

    // Where shape i of a kind stands in a slice of a length, or why it does not.
    pub(crate) fn look_place(self, k: ShapeKind, len: usize, i: usize) -> Result<usize, Refusal>
        ensures { result ≡ answered reason_number Err (look_told k self len i) (Ok (slot_of k self i)) }
    {
        if self.is_impossible() {
            return Err(Reason::CannotBe.into());
        }
        if len < self.slots() {
            return Err(Reason::Short.into());
        }
        if self.count(k) <= i {
            return Err(Reason::NoShape.into());
        }
        Ok(self.slot(k, i))
    }
}
