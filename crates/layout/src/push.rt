// The push of a shape, and `done`.
ghost use Rattle.std.specs.Prelude.{◌≡◌, ◌+◌, ◌≤◌, length};
ghost use Rattle.layout.specs.Slots.{ids_end, size_of, components};
ghost use Rattle.layout.specs.Push.{over, onward, state, Push, done_of};
ghost use Rattle.layout.specs.Steps.{next_stage};

use crate::check::Reason;
use crate::shape::{InSlots, Shape};
use crate::{Layout, Pushed, Stage};
use refusal::Refusal;

// Puts so many ids, rising from one on, from a place on.
fn number(ids: &mut [u32], at: usize, next: u32, count: usize)
    requires { (at + count ≤ length ids.old) × (next + count ≤ ids_end) }
    ensures { ids.new ≡ over ids.old at (onward next count) }
{
    for i in 0..count {
        ids[at + i] = next + i as u32;
    }
}

// Puts ids from one on, and the components of a shape, from a slot on.
fn store<S: Shape>(ids: &mut [u32], values: &mut [f64], at: usize, next: u32, size: usize, shape: S)
    requires { (at + size ≤ length ids.old) × (at + size ≤ length values.old) × (next + size ≤ ids_end) × (size ≡ size_of S.kind) }
    ensures ids { ids.new ≡ over ids.old at (onward next size) }
    ensures values { values.new ≡ over values.old at (components (S.figure shape)) }
{
    number(ids, at, next, size);
    shape.put(&mut values[at..at + size]);
}

impl Stage {
    // The next stage, if there is one.
    fn next(self) -> Option<Stage>
        ensures { result ≡ next_stage self }
    {
        match self {
            Stage::Points => Some(Stage::Circles),
            Stage::Circles => Some(Stage::Arcs),
            Stage::Arcs => Some(Stage::Done),
            Stage::Done => None,
        }
    }
}

impl Layout {
    // Pushes a shape.
    pub fn push<S: Shape>(
        self,
        next: u32,
        ids: &mut [u32],
        values: &mut [f64],
        shape: S,
    ) -> Result<Pushed, Refusal>
        ensures { Push (S.figure shape) (state self next ids.old values.old) result ids.new values.new }
    {
        let kind = S::kind();
        let at = self.push_place(kind, next, ids.len(), values.len())?;
        let size = kind.size();
        store(ids, values, at, next, size, shape);
        Ok(Pushed {
            layout: self.with_one(kind),
            next: next + size as u32,
        })
    }

    // Steps from points to circles, to arcs, and to done.
    pub fn done(self) -> Result<Layout, Refusal>
        ensures { result ≡ done_of self }
    {
        if self.is_impossible() {
            return Err(Reason::CannotBe.into());
        }
        match self.stage.next() {
            Some(stage) => Ok(Layout { stage, ..self }),
            None => Err(Reason::WrongStage.into()),
        }
    }
}
