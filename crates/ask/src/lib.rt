// What a record is asked for: a label, as the part of the text that it names, or its angle. The record is judged by itself.
#![tactic(auto)]

ghost use Rattle.std.specs.Prelude.{◌≡◌};
ghost use Rattle.record.specs.Entry.{LendsPart};
ghost use Rattle.ask.specs.Ask.{label_of, label_from, angle_in, angle_of};
ghost use Rattle.ask.specs.Steps.{NamesLabel};

use record::decode::decode_record;
use record::formed::malformed_at;
use record::sound::good_kind;
use record::{Record, View};
use refusal::Refusal;

// The third byte of an angle in degrees: a record's byte, which `decode` hands on as it is.
const DEGREES: u8 = 1;

// An angle with its number.
#[derive(Clone, Copy)]
pub enum Angle {
    Degrees(f64),
    Radians(f64),
}

// The part that label q of a record names; an empty one for a bad record or label number.
fn part_of(text: &[u8], bytes: &[u8], q: usize) -> View
    ensures { NamesLabel text.now bytes.now q result }
{
    let nothing = View { start: 0, len: 0 };
    if good_kind(text, bytes) == 0 {
        return nothing;
    }
    let r = decode_record(bytes, 0);
    if r.count as usize <= q {
        return nothing;
    }
    r.labels[q]
}

// Label q of a record, counted from 0: the part of the lent text that it names, and for a bad record or label number an empty part at
// the text's start.
pub fn label<'a>(text: &'a [u8], bytes: &[u8], q: usize) -> &'a [u8]
    ensures { LendsPart (label_of text.now bytes.now q) (label_from text.now bytes.now q) text.entry.ref_ptr result.now result.ref_ptr }
{
    let v = part_of(text, bytes, q);
    let start = v.start;
    let end = start + v.len;
    &text[start..end]
}

// The angle of a record's fields.
fn angle_in(r: Record) -> Angle
    ensures { result ≡ angle_in r }
{
    let x = bits::from_bits(r.x);
    if r.third == DEGREES {
        return Angle::Degrees(x);
    }
    Angle::Radians(x)
}

// The angle of a good record that has one; any other record gets 30 at 0.
pub fn angle_of(text: &[u8], bytes: &[u8]) -> Result<Angle, Refusal>
    ensures { result ≡ angle_of text.now bytes.now }
{
    let kind = good_kind(text, bytes);
    if kinds::cell_of(kind, kinds::SORT) != kinds::ANGLE {
        return Err(malformed_at(0));
    }
    Ok(angle_in(decode_record(bytes, 0)))
}
