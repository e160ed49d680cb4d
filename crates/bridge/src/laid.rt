// The answers about layouts as six numbers.
ghost use Rattle.bridge.specs.Told.{pushed_parts, stepped_parts, point_ids_parts, circle_ids_parts, arc_ids_parts, point_parts, circle_parts, arc_parts};

use crate::PARTS;
use crate::told::{Parts, layout_parts};
use bits::to_bits;
use layout::{Arc, ArcVars, Circle, CircleVars, Layout, Point, PointVars, Pushed};

// What a push answers.
impl Parts for Pushed {
    ghost parts = { pushed_parts };

    fn parts(self) -> [u64; PARTS] {
        layout_parts(self.layout, self.next as u64, 0)
    }
}

// What `done` answers.
impl Parts for Layout {
    ghost parts = { stepped_parts };

    fn parts(self) -> [u64; PARTS] {
        layout_parts(self, 0, 0)
    }
}

// The ids of a point.
impl Parts for PointVars {
    ghost parts = { point_ids_parts };

    fn parts(self) -> [u64; PARTS] {
        [self.x as u64, self.y as u64, 0, 0, 0, 0]
    }
}

// The ids of a circle.
impl Parts for CircleVars {
    ghost parts = { circle_ids_parts };

    fn parts(self) -> [u64; PARTS] {
        [
            self.center.x as u64,
            self.center.y as u64,
            self.radius as u64,
            0,
            0,
            0,
        ]
    }
}

// The ids of an arc.
impl Parts for ArcVars {
    ghost parts = { arc_ids_parts };

    fn parts(self) -> [u64; PARTS] {
        [
            self.start.x as u64,
            self.start.y as u64,
            self.end.x as u64,
            self.end.y as u64,
            self.center.x as u64,
            self.center.y as u64,
        ]
    }
}

// A point, read out.
impl Parts for Point {
    ghost parts = { point_parts };

    fn parts(self) -> [u64; PARTS] {
        [to_bits(self.x), to_bits(self.y), 0, 0, 0, 0]
    }
}

// A circle, read out.
impl Parts for Circle {
    ghost parts = { circle_parts };

    fn parts(self) -> [u64; PARTS] {
        [
            to_bits(self.center.x),
            to_bits(self.center.y),
            to_bits(self.radius),
            0,
            0,
            0,
        ]
    }
}

// An arc, read out.
impl Parts for Arc {
    ghost parts = { arc_parts };

    fn parts(self) -> [u64; PARTS] {
        [
            to_bits(self.a.x),
            to_bits(self.a.y),
            to_bits(self.b.x),
            to_bits(self.b.y),
            to_bits(self.center.x),
            to_bits(self.center.y),
        ]
    }
}
