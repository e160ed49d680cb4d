// The ids of shapes, as they are read from slots.
ghost use Rattle.layout.specs.declared.ShapeKind.TheVariants as K;
ghost use Rattle.layout.specs.Look.{point_vars, circle_vars, arc_vars};

use crate::shape::InSlots;
use crate::{ArcVars, CircleVars, PointVars, ShapeKind};

impl InSlots<u32> for PointVars {
    ghost kind = { K.Point };

    ghost read = { point_vars };

    fn kind() -> ShapeKind {
        ShapeKind::Point
    }

    fn read(ids: &[u32], at: usize) -> PointVars {
        PointVars {
            x: ids[at],
            y: ids[at + 1],
        }
    }
}

impl InSlots<u32> for CircleVars {
    ghost kind = { K.Circle };

    ghost read = { circle_vars };

    fn kind() -> ShapeKind {
        ShapeKind::Circle
    }

    fn read(ids: &[u32], at: usize) -> CircleVars {
        CircleVars {
            center: PointVars::read(ids, at),
            radius: ids[at + 2],
        }
    }
}

impl InSlots<u32> for ArcVars {
    ghost kind = { K.Arc };

    ghost read = { arc_vars };

    fn kind() -> ShapeKind {
        ShapeKind::Arc
    }

    fn read(ids: &[u32], at: usize) -> ArcVars {
        ArcVars {
            start: PointVars::read(ids, at),
            end: PointVars::read(ids, at + 2),
            center: PointVars::read(ids, at + 4),
        }
    }
}
