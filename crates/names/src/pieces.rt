// A label cut at its first point: what stands before it, with its hash, and the part behind it.
ghost use Rattle.std.specs.Prelude.{◌≡◌, ◌<◌, length};
ghost use Rattle.names.specs.Cut.{stem, part_no};
ghost use Rattle.names.specs.Chains.{chains, hash_of};

use crate::chains::HEADS;
use crate::{A, B, CENTER, PARTS, RADIUS, WHOLE};

// How long a label is up to its first point, and the hash of that.
#[derive(Clone, Copy)]
pub(crate) struct Stem {
    pub len: usize,
    pub hash: usize,
}

// Those of a label.
pub(crate) fn front(label: &[u8]) -> Stem
    ensures { (result.len ≡ length (stem label.now)) × (result.hash ≡ hash_of label.now) × (result.hash < chains) }
{
    let mut hash = 0;
    for (i, b) in label.iter().enumerate() {
        if *b == b'.' {
            return Stem { len: i, hash };
        }
        hash = (hash * 37 + (*b as usize)) % HEADS;
    }
    Stem {
        len: label.len(),
        hash,
    }
}

// The number of a part: nothing, the four that a shape can have, and any other.
pub(crate) fn part_of(rest: &[u8]) -> usize
    ensures { result ≡ part_no rest.now }
{
    if rest.is_empty() {
        return WHOLE;
    }
    if rest == b".center".as_slice() {
        return CENTER;
    }
    if rest == b".radius".as_slice() {
        return RADIUS;
    }
    if rest == b".a".as_slice() {
        return A;
    }
    if rest == b".b".as_slice() {
        return B;
    }
    PARTS
}
