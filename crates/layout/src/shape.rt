// What a shape is to its slots: how it, or its ids, are read from them, and how its components are put there.
ghost use Rattle.std.specs.Prelude.{◌≡◌, ℕ, ◌+◌, ◌≤◌, List, length, refl, Float};
ghost use Rattle.layout.specs.declared.ShapeKind.{ShapeKind};
ghost use Rattle.layout.specs.declared.ShapeKind.TheVariants as K;
ghost use Rattle.layout.specs.Slots.{Figure, point, circle, arc, kind_of, components, size_of};
ghost use Rattle.layout.specs.Look.{point_at, circle_at, arc_at};

use crate::{Arc, Circle, Point, ShapeKind};

// What stands in the slots of a shape: the shape in those of values, its ids in those of ids.
pub trait InSlots<X>: Copy {
    ghost kind: { ShapeKind };

    ghost read: { List X → ℕ → Self };

    // The shape's kind.
    fn kind() -> ShapeKind
        ensures { result ≡ kind };

    // What stands from a slot on.
    fn read(slots: &[X], at: usize) -> Self
        requires { at + size_of kind ≤ length slots.now }
        ensures { result ≡ read slots.now at };
}

// A shape that can be pushed.
pub trait Shape: InSlots<f64> {
    ghost figure: { Self → Figure };

    // Puts its components into as many values.
    fn put(self, values: &mut [f64])
        requires { length values.old ≡ size_of Self.kind }
        ensures { values.new ≡ components (figure self) };

    ghost is_of_kind: { (s : Self) → kind_of (figure s) ≡ Self.kind };
}

impl InSlots<f64> for Point {
    ghost kind = { K.Point };

    ghost read = { point_at };

    fn kind() -> ShapeKind {
        ShapeKind::Point
    }

    fn read(values: &[f64], at: usize) -> Point {
        Point {
            x: values[at],
            y: values[at + 1],
        }
    }
}

impl Shape for Point {
    ghost figure = { point };

    ghost is_of_kind = { λ s. refl };

    fn put(self, values: &mut [f64]) {
        values.copy_from_slice(&[self.x, self.y]);
    }
}

impl InSlots<f64> for Circle {
    ghost kind = { K.Circle };

    ghost read = { circle_at };

    fn kind() -> ShapeKind {
        ShapeKind::Circle
    }

    fn read(values: &[f64], at: usize) -> Circle {
        Circle {
            center: Point::read(values, at),
            radius: values[at + 2],
        }
    }
}

impl Shape for Circle {
    ghost figure = { circle };

    ghost is_of_kind = { λ s. refl };

    fn put(self, values: &mut [f64]) {
        values.copy_from_slice(&[self.center.x, self.center.y, self.radius]);
    }
}

impl InSlots<f64> for Arc {
    ghost kind = { K.Arc };

    ghost read = { arc_at };

    fn kind() -> ShapeKind {
        ShapeKind::Arc
    }

    fn read(values: &[f64], at: usize) -> Arc {
        Arc {
            a: Point::read(values, at),
            b: Point::read(values, at + 2),
            center: Point::read(values, at + 4),
        }
    }
}

impl Shape for Arc {
    ghost figure = { arc };

    ghost is_of_kind = { λ s. refl };

    fn put(self, values: &mut [f64]) {
        values.copy_from_slice(&[
            self.a.x,
            self.a.y,
            self.b.x,
            self.b.y,
            self.center.x,
            self.center.y,
        ]);
    }
}
