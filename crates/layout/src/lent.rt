// The push with the counter of ids lent, and stepped in place.
ghost use Rattle.layout.specs.Push.{PushLent};

use crate::shape::Shape;
use crate::{Counter, Layout, Pushed};
use refusal::Refusal;

// Pushes a shape.
pub fn push<S: Shape>(
    l: Layout,
    counter: &mut Counter,
    ids: &mut [u32],
    values: &mut [f64],
    shape: S,
) -> Result<Pushed, Refusal>
    ensures { PushLent (S.figure shape) l counter.old ids.old values.old result counter.new ids.new values.new }
{
    let pushed = l.push(counter.next, ids, values, shape)?;
    counter.next = pushed.next;
    Ok(pushed)
}
