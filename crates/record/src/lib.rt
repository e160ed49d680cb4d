// The record of 28 bytes that a line of a page is read to.
#![tactic(auto)]

pub mod decode;
pub mod formed;
pub mod sound;

ghost use Rattle.std.specs.Prelude.{◌≡◌};
ghost use Rattle.record.specs.Record.{one_label, encode_view, encode, instruction, guess};
ghost use Rattle.record.specs.Decode.{no_record};

use kinds::PAIR_GUESS;
use little::{le16, le64};

// The length of a record, the most records of a list, the room that they take, and the longest text.
pub const SIZE: usize = 28;

pub const MOST: usize = 1_800;

pub const ROOM: usize = MOST * SIZE;

pub const LONGEST: usize = 32_768;

// The label places of a record, and the first byte of its mark.
pub const PLACES: usize = 4;

const MARK: u8 = 69;

// A part of a text, by its start and its length.
#[derive(Clone, Copy)]
pub struct View {
    pub start: usize,
    pub len: usize,
}

// A record by its fields: its kind and third byte, its labels as parts of the text, and its numbers by their bits.
#[derive(Clone, Copy)]
pub struct Record {
    pub kind: u8,
    pub third: u8,
    pub count: u8,
    pub labels: [View; PLACES],
    pub x: u64,
    pub y: u64,
}

// A record with one label.
pub fn one_label(kind: u8, third: u8, label: View, x: u64, y: u64) -> Record
    ensures { result ≡ one_label kind third label x y }
{
    let none = View { start: 0, len: 0 };
    Record {
        kind,
        third,
        count: 1,
        labels: [label, none, none, none],
        x,
        y,
    }
}

// A record that is none: there is no kind 0.
pub fn no_record() -> Record
    ensures { result ≡ no_record }
{
    let none = View { start: 0, len: 0 };
    Record {
        kind: 0,
        third: 0,
        count: 0,
        labels: [none; 4],
        x: 0,
        y: 0,
    }
}

// A view as four bytes: its start, then its length.
fn view_bytes(v: View) -> [u8; 4]
    ensures { result ≡ encode_view v }
{
    let start = le16(v.start);
    let len = le16(v.len);
    [start[0], start[1], len[0], len[1]]
}

// The bytes of an instruction: four labels, then the number.
fn instruction_bytes(r: Record) -> [u8; SIZE]
    ensures { result ≡ instruction r }
{
    let mut b = [0; SIZE];
    b[..4].copy_from_slice(&[MARK, r.kind, r.third, r.count]);
    b[4..8].copy_from_slice(&view_bytes(r.labels[0]));
    b[8..12].copy_from_slice(&view_bytes(r.labels[1]));
    b[12..16].copy_from_slice(&view_bytes(r.labels[2]));
    b[16..20].copy_from_slice(&view_bytes(r.labels[3]));
    b[20..].copy_from_slice(&le64(r.x));
    b
}

// The bytes of a guess: one label, then the two numbers, then four zeros.
fn guess_bytes(r: Record) -> [u8; SIZE]
    ensures { result ≡ guess r }
{
    let mut b = [0; SIZE];
    b[..4].copy_from_slice(&[MARK, r.kind, r.third, r.count]);
    b[4..8].copy_from_slice(&view_bytes(r.labels[0]));
    b[8..16].copy_from_slice(&le64(r.x));
    b[16..24].copy_from_slice(&le64(r.y));
    b
}

// The bytes of a record.
pub fn encode_record(r: Record) -> [u8; SIZE]
    ensures { result ≡ encode r }
{
    if PAIR_GUESS <= r.kind {
        return guess_bytes(r);
    }
    instruction_bytes(r)
}
