// Layouts: pushes, `done`, lookups of ids, and readout. A layout crosses as its three counts and the number of its stage: 0 points,
// 1 circles, 2 arcs, 3 done. Another number is an impossible stage, told by 20. The C interface knows no types of layout's: hence the
// many numbers, and an export for each kind of shape.
ghost use Rattle.std.specs.Prelude.{◌≡◌};
ghost use Rattle.layout.specs.Push.{Push, state, done_of};
ghost use Rattle.layout.specs.Look.{point_ids, circle_ids, arc_ids, arc_slot_ids, point_read, circle_read, arc_read};
ghost use Rattle.bridge.specs.Given.{layout_by, point_by, circle_by, arc_by};
ghost use Rattle.bridge.specs.Told.{Tells, pushed_told, stepped_told, point_ids_told, circle_ids_told, arc_ids_told, point_told, circle_told, arc_told};

use crate::PARTS;
use crate::told::{answer, tell};
use layout::{Arc, ArcVars, Circle, CircleVars, Layout, MOST, Point, PointVars, Stage};

// More points than there can be.
const TOO_MANY: usize = MOST + 1;

// The layout with these counts at the stage with a number; with no such stage, one that cannot be.
#[tactic(auto, using(crate::proofs::Parts::known_stage, crate::proofs::Parts::unknown_stage), unfolding(crate::specs::Given::layout_by))]
fn layout_by(points: usize, circles: usize, arcs: usize, stage: usize) -> Layout
    ensures { result ≡ layout_by points circles arcs stage }
{
    match Stage::numbered(stage) {
        Some(stage) => Layout {
            points,
            circles,
            arcs,
            stage,
        },
        None => Layout {
            points: TOO_MANY,
            circles,
            arcs,
            stage: Stage::Done,
        },
    }
}

// Pushes a point.
#[unsafe(no_mangle)]
pub extern "C" fn hunposeto_push_point(
    points: usize,
    circles: usize,
    arcs: usize,
    stage: usize,
    next: u32,
    ids: &mut [u32],
    values: &mut [f64],
    x: f64,
    y: f64,
    out: &mut [u64; PARTS],
) -> u64
    ensures { Tells (λ p. Push (point_by x y) (state (layout_by points circles arcs stage) next ids.old values.old) p ids.new values.new) pushed_told result out.new }
{
    let shape = Point { x, y };
    tell(
        answer(layout_by(points, circles, arcs, stage).push(next, ids, values, shape)),
        out,
    )
}

// Pushes a circle.
#[unsafe(no_mangle)]
pub extern "C" fn hunposeto_push_circle(
    points: usize,
    circles: usize,
    arcs: usize,
    stage: usize,
    next: u32,
    ids: &mut [u32],
    values: &mut [f64],
    x: f64,
    y: f64,
    radius: f64,
    out: &mut [u64; PARTS],
) -> u64
    ensures { Tells (λ p. Push (circle_by x y radius) (state (layout_by points circles arcs stage) next ids.old values.old) p ids.new values.new) pushed_told result out.new }
{
    let shape = Circle {
        center: Point { x, y },
        radius,
    };
    tell(
        answer(layout_by(points, circles, arcs, stage).push(next, ids, values, shape)),
        out,
    )
}

// Pushes an arc.
#[unsafe(no_mangle)]
pub extern "C" fn hunposeto_push_arc(
    points: usize,
    circles: usize,
    arcs: usize,
    stage: usize,
    next: u32,
    ids: &mut [u32],
    values: &mut [f64],
    ax: f64,
    ay: f64,
    bx: f64,
    by: f64,
    cx: f64,
    cy: f64,
    out: &mut [u64; PARTS],
) -> u64
    ensures { Tells (λ p. Push (arc_by ax ay bx by cx cy) (state (layout_by points circles arcs stage) next ids.old values.old) p ids.new values.new) pushed_told result out.new }
{
    let shape = Arc {
        a: Point { x: ax, y: ay },
        b: Point { x: bx, y: by },
        center: Point { x: cx, y: cy },
    };
    tell(
        answer(layout_by(points, circles, arcs, stage).push(next, ids, values, shape)),
        out,
    )
}

// Steps from points to circles, to arcs, and to done.
#[unsafe(no_mangle)]
pub extern "C" fn hunposeto_done(
    points: usize,
    circles: usize,
    arcs: usize,
    stage: usize,
    out: &mut [u64; PARTS],
) -> u64
    ensures { Tells (λ x. x ≡ done_of (layout_by points circles arcs stage)) stepped_told result out.new }
{
    tell(answer(layout_by(points, circles, arcs, stage).done()), out)
}

// The ids of point i.
#[unsafe(no_mangle)]
pub extern "C" fn hunposeto_point_ids(
    points: usize,
    circles: usize,
    arcs: usize,
    stage: usize,
    ids: &[u32],
    i: usize,
    out: &mut [u64; PARTS],
) -> u64
    ensures { Tells (λ x. x ≡ point_ids (layout_by points circles arcs stage) ids.now i) point_ids_told result out.new }
{
    tell(
        answer(layout_by(points, circles, arcs, stage).look::<u32, PointVars>(ids, i)),
        out,
    )
}

// The ids of circle i.
#[unsafe(no_mangle)]
pub extern "C" fn hunposeto_circle_ids(
    points: usize,
    circles: usize,
    arcs: usize,
    stage: usize,
    ids: &[u32],
    i: usize,
    out: &mut [u64; PARTS],
) -> u64
    ensures { Tells (λ x. x ≡ circle_ids (layout_by points circles arcs stage) ids.now i) circle_ids_told result out.new }
{
    tell(
        answer(layout_by(points, circles, arcs, stage).look::<u32, CircleVars>(ids, i)),
        out,
    )
}

// The ids of arc i as geometry_variables.rs has it: they are looked for right after the points.
#[unsafe(no_mangle)]
pub extern "C" fn hunposeto_arc_ids(
    points: usize,
    circles: usize,
    arcs: usize,
    stage: usize,
    ids: &[u32],
    i: usize,
    out: &mut [u64; PARTS],
) -> u64
    ensures { Tells (λ x. x ≡ arc_ids (layout_by points circles arcs stage) ids.now i) arc_ids_told result out.new }
{
    tell(
        answer(layout_by(points, circles, arcs, stage).arc_ids(ids, i)),
        out,
    )
}

// The ids of arc i, after the points and the circles.
#[unsafe(no_mangle)]
pub extern "C" fn hunposeto_arc_slot_ids(
    points: usize,
    circles: usize,
    arcs: usize,
    stage: usize,
    ids: &[u32],
    i: usize,
    out: &mut [u64; PARTS],
) -> u64
    ensures { Tells (λ x. x ≡ arc_slot_ids (layout_by points circles arcs stage) ids.now i) arc_ids_told result out.new }
{
    tell(
        answer(layout_by(points, circles, arcs, stage).look::<u32, ArcVars>(ids, i)),
        out,
    )
}

// Point i, read out.
#[unsafe(no_mangle)]
pub extern "C" fn hunposeto_point(
    points: usize,
    circles: usize,
    arcs: usize,
    stage: usize,
    values: &[f64],
    i: usize,
    out: &mut [u64; PARTS],
) -> u64
    ensures { Tells (λ x. x ≡ point_read (layout_by points circles arcs stage) values.now i) point_told result out.new }
{
    tell(
        answer(layout_by(points, circles, arcs, stage).look::<f64, Point>(values, i)),
        out,
    )
}

// Circle i, read out.
#[unsafe(no_mangle)]
pub extern "C" fn hunposeto_circle(
    points: usize,
    circles: usize,
    arcs: usize,
    stage: usize,
    values: &[f64],
    i: usize,
    out: &mut [u64; PARTS],
) -> u64
    ensures { Tells (λ x. x ≡ circle_read (layout_by points circles arcs stage) values.now i) circle_told result out.new }
{
    tell(
        answer(layout_by(points, circles, arcs, stage).look::<f64, Circle>(values, i)),
        out,
    )
}

// Arc i, read out.
#[unsafe(no_mangle)]
pub extern "C" fn hunposeto_arc(
    points: usize,
    circles: usize,
    arcs: usize,
    stage: usize,
    values: &[f64],
    i: usize,
    out: &mut [u64; PARTS],
) -> u64
    ensures { Tells (λ x. x ≡ arc_read (layout_by points circles arcs stage) values.now i) arc_told result out.new }
{
    tell(
        answer(layout_by(points, circles, arcs, stage).look::<f64, Arc>(values, i)),
        out,
    )
}
