// Pages and records: reading, the check, lowering, and what a record is asked for.
ghost use Rattle.std.specs.Prelude.{◌≡◌, true, false};
ghost use Rattle.reader.specs.Page.{Reads};
ghost use Rattle.record.specs.Formed.{entries};
ghost use Rattle.ask.specs.Ask.{label_of, angle_of};
ghost use Rattle.drawing.specs.Check.{checked_of};
ghost use Rattle.lowering.specs.Lower.{Lowers};
ghost use Rattle.bridge.specs.Told.{Tells, reading_told, checked_told, lowered_told, asked_told, start_told, label_told};

use crate::PARTS;
use crate::told::{answer, good, tell};
use ask::{angle_of, label};
use drawing::check;
use lowering::lower;
use reader::{parse_problem, parse_whole};
use record::PLACES;
use record::decode::decode_record;

// Reads a page, which may leave text over, and writes its records.
#[unsafe(no_mangle)]
pub extern "C" fn hunposeto_read(text: &[u8], records: &mut [u8], out: &mut [u64; PARTS]) -> u64
    ensures { Tells (λ x. Reads false text.now records.old x records.new) reading_told result out.new }
{
    tell(answer(parse_problem(text, records)), out)
}

// The same, where the page has to be the whole text.
#[unsafe(no_mangle)]
pub extern "C" fn hunposeto_read_whole(
    text: &[u8],
    records: &mut [u8],
    out: &mut [u64; PARTS],
) -> u64
    ensures { Tells (λ x. Reads true text.now records.old x records.new) reading_told result out.new }
{
    tell(answer(parse_whole(text, records)), out)
}

// Where label q of a record starts, and 0 where there is no such label or it is empty.
fn label_start(bytes: &[u8], q: usize, len: usize) -> usize
    ensures { result ≡ start_told bytes.now q len }
{
    if len == 0 {
        return 0;
    }
    if PLACES <= q {
        return 0;
    }
    let r = decode_record(bytes, 0);
    let v = r.labels[q];
    v.start
}

// The start and length of label q of a record, counted from 0; an empty part, at 0, for a bad record or label number.
#[unsafe(no_mangle)]
pub extern "C" fn hunposeto_label(
    text: &[u8],
    bytes: &[u8],
    q: usize,
    out: &mut [u64; PARTS],
) -> u64
    ensures { Tells (λ x. x ≡ label_of text.now bytes.now q) (label_told bytes.now q) result out.new }
{
    let part = label(text, bytes, q);
    let len = part.len();
    let start = label_start(bytes, q, len);
    tell(good([start as u64, len as u64, 0, 0, 0, 0]), out)
}

// The angle of a record that has one.
#[unsafe(no_mangle)]
pub extern "C" fn hunposeto_angle(text: &[u8], bytes: &[u8], out: &mut [u64; PARTS]) -> u64
    ensures { Tells (λ x. x ≡ angle_of text.now bytes.now) asked_told result out.new }
{
    tell(answer(angle_of(text, bytes)), out)
}

// The check of a drawing.
#[unsafe(no_mangle)]
pub extern "C" fn hunposeto_check(text: &[u8], records: &[u8], out: &mut [u64; PARTS]) -> u64
    ensures { Tells (λ x. x ≡ checked_of (entries text.now records.now)) checked_told result out.new }
{
    tell(answer(check(text, records)), out)
}

// Lowers a drawing from the next id.
#[unsafe(no_mangle)]
pub extern "C" fn hunposeto_lower(
    text: &[u8],
    records: &[u8],
    next: u32,
    ids: &mut [u32],
    values: &mut [f64],
    rows: &mut [u8],
    out: &mut [u64; PARTS],
) -> u64
    ensures { Tells (λ x. Lowers (entries text.now records.now) next ids.old values.old rows.old x ids.new values.new rows.new) lowered_told result out.new }
{
    tell(answer(lower(text, records, next, ids, values, rows)), out)
}
