// Lookups of a shape's ids, and its readout, by its number.
ghost use Rattle.std.specs.Prelude.{◌≡◌};
ghost use Rattle.layout.specs.Look.{looked, arc_ids};

use crate::shape::InSlots;
use crate::{ArcVars, Layout, ShapeKind, VARS_PER_ARC, VARS_PER_POINT};
use refusal::Refusal;

impl Layout {
    // Shape i of a kind, read out of values, or its ids.
    pub fn look<X, T: InSlots<X>>(self, slots: &[X], i: usize) -> Result<T, Refusal>
        ensures { result ≡ looked T.kind T.read self slots.now i }
    {
        let at = self.look_place(T::kind(), slots.len(), i)?;
        Ok(T::read(slots, at))
    }

    // The ids of arc i as geometry_variables.rs has it: they are looked for right after the points.
    pub fn arc_ids(self, ids: &[u32], i: usize) -> Result<ArcVars, Refusal>
        ensures { result ≡ arc_ids self ids.now i }
    {
        self.look_place(ShapeKind::Arc, ids.len(), i)?;
        Ok(ArcVars::read(ids, self.points * VARS_PER_POINT + i * VARS_PER_ARC))
    }
}
