// A record's fields back from its bytes.
ghost use Rattle.std.specs.Prelude.{◌≡◌, true, false, ◌+◌, ◌<◌, length};
ghost use Rattle.record.specs.Record.{record_bytes};
ghost use Rattle.little.specs.Little.{byte, u64};
ghost use Rattle.record.specs.Decode.{is_guess, view_at, decode, decode_at};

use super::{Record, SIZE, View, no_record};
use kinds::PAIR_GUESS;
use little::{u16_of, u64_of};

// The view that is written in the four bytes from k on.
pub(crate) fn view_at(b: &[u8], k: usize) -> View
    requires { k + 3 < length b.now }
    ensures { result ≡ view_at b.now k }
{
    let m = k + 2;
    View {
        start: u16_of(b[k], b[k + 1]) as usize,
        len: u16_of(b[m], b[m + 1]) as usize,
    }
}

// The number of the eight bytes from k on.
pub(crate) fn u64_at(b: &[u8], k: usize) -> u64
    requires { k + 7 < length b.now }
    ensures { result ≡ u64 b.now k }
{
    let end = k + 8;
    let mut bytes = [0; 8];
    bytes.copy_from_slice(&b[k..end]);
    u64_of(bytes)
}

// A guess: one label and two numbers.
fn guess_fields(b: &[u8]) -> Record
    requires { (length b.now ≡ record_bytes) × (is_guess (byte b.now 1) ≡ true) }
    ensures { result ≡ decode b.now }
{
    let none = View { start: 0, len: 0 };
    let labels = [view_at(b, 4), none, none, none];
    Record {
        kind: b[1],
        third: b[2],
        count: b[3],
        labels,
        x: u64_at(b, 8),
        y: u64_at(b, 16),
    }
}

// An instruction: four labels and a number.
fn instruction_fields(b: &[u8]) -> Record
    requires { (length b.now ≡ record_bytes) × (is_guess (byte b.now 1) ≡ false) }
    ensures { result ≡ decode b.now }
{
    let labels = [view_at(b, 4), view_at(b, 8), view_at(b, 12), view_at(b, 16)];
    Record {
        kind: b[1],
        third: b[2],
        count: b[3],
        labels,
        x: u64_at(b, 20),
        y: 0,
    }
}

// The fields of one record's bytes.
pub(crate) fn fields(b: &[u8]) -> Record
    requires { length b.now ≡ record_bytes }
    ensures { result ≡ decode b.now }
{
    if PAIR_GUESS <= b[1] {
        return guess_fields(b);
    }
    instruction_fields(b)
}

// Record i of the bytes of a list, and one of kind 0 past the last whole record.
pub fn decode_record(records: &[u8], i: usize) -> Record
    ensures { result ≡ decode_at records.now i }
{
    if records.len() / SIZE <= i {
        return no_record();
    }
    let at = i * SIZE;
    let end = at + SIZE;
    fields(&records[at..end])
}
