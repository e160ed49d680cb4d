// A layout of points, circles and arcs over two lent slices, one of ids and one of values, which stay two since C lends them so. Here are its
// types; `check` has the tests behind the refusals, `shape` and `vars` what a shape is to its slots, `push` fills slots, `look` finds a shape's ids and reads
// it out, and `lent` pushes with the counter of ids lent.
#![tactic(auto)]

ghost use Rattle.std.specs.Prelude.{◌≡◌};
ghost use Rattle.layout.specs.Slots.{empty, stage_number, stage_numbered};

mod check;
pub mod lent;
mod look;
mod push;
mod shape;
mod vars;

// The most shapes of a kind.
pub const MOST: usize = 4000;

// How many variables, each in a slot of its own, a shape has.
pub const VARS_PER_POINT: usize = 2;

pub const VARS_PER_CIRCLE: usize = 3;

pub const VARS_PER_ARC: usize = 6;

// The most slots of a layout.
pub const SLOTS: usize = MOST * (VARS_PER_POINT + VARS_PER_CIRCLE + VARS_PER_ARC);

// One past the largest id.
pub const IDS_END: u32 = 4294967295;

// What is pushed now: points, then circles, then arcs, then nothing.
#[derive(Clone, Copy, Debug, PartialEq, Eq, PartialOrd, Ord)]
pub enum Stage {
    Points,
    Circles,
    Arcs,
    Done,
}

// How many shapes of each kind there are, and the stage.
#[derive(Clone, Copy)]
pub struct Layout {
    pub points: usize,
    pub circles: usize,
    pub arcs: usize,
    pub stage: Stage,
}

// The kinds of shapes.
#[derive(Clone, Copy, Debug, PartialEq, Eq)]
pub enum ShapeKind {
    Point,
    Circle,
    Arc,
}

// The shapes, in numbers.
#[derive(Clone, Copy)]
pub struct Point {
    pub x: f64,
    pub y: f64,
}

#[derive(Clone, Copy)]
pub struct Circle {
    pub center: Point,
    pub radius: f64,
}

#[derive(Clone, Copy)]
pub struct Arc {
    pub a: Point,
    pub b: Point,
    pub center: Point,
}

// The shapes, in ids. They are no `Point<u32>` and so on, which would be no plainer: an arc's ids are named by its start and end, as in
// geometry_variables.rs.
#[derive(Clone, Copy)]
pub struct PointVars {
    pub x: u32,
    pub y: u32,
}

#[derive(Clone, Copy)]
pub struct CircleVars {
    pub center: PointVars,
    pub radius: u32,
}

#[derive(Clone, Copy)]
pub struct ArcVars {
    pub start: PointVars,
    pub end: PointVars,
    pub center: PointVars,
}

// What a push answers: the layout with the shape counted in, and the next id.
#[derive(Clone, Copy)]
pub struct Pushed {
    pub layout: Layout,
    pub next: u32,
}

// The counter of ids: the next one.
#[derive(Clone, Copy)]
pub struct Counter {
    pub next: u32,
}

impl Stage {
    // Its number, from 0 on.
    pub fn number(self) -> u8
        ensures { result ≡ stage_number self }
    {
        self as u8
    }

    // The stage with a number, if there is one.
    pub fn numbered(number: usize) -> Option<Stage>
        ensures { result ≡ stage_numbered number }
    {
        match number {
            0 => Some(Stage::Points),
            1 => Some(Stage::Circles),
            2 => Some(Stage::Arcs),
            3 => Some(Stage::Done),
            _ => None,
        }
    }
}

impl Layout {
    // No shapes yet.
    pub fn new() -> Layout
        ensures { result ≡ empty }
    {
        Layout {
            points: 0,
            circles: 0,
            arcs: 0,
            stage: Stage::Points,
        }
    }
}
