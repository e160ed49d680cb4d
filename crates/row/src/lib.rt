// The row of 44 bytes that a rule is lowered to: written to bytes, and read from them.
#![tactic(auto)]

pub mod formed;

ghost use Rattle.std.specs.Prelude.{◌≡◌, ◌+◌, ◌<◌, length};
ghost use Rattle.ground.specs.Lists.{flat};
ghost use Rattle.little.specs.Little.{le32, u32, u64};
ghost use Rattle.row.specs.Row.{row_bytes, eight, bytes_of, held_in, row_of};

use little::{le32, le64, u32_of, u64_of};

// The length of a row, the first byte of its mark, and the most ids that it has.
pub const ROW: usize = 44;

const MARK: u8 = 82;

pub const MOST_IDS: usize = 8;

// A row by its fields: a rule's kind and third byte, how many ids it has, its ids with zeros behind them, and the bits of its number.
#[derive(Clone, Copy)]
pub struct Row {
    pub kind: u8,
    pub third: u8,
    pub count: u8,
    pub ids: [u32; MOST_IDS],
    pub bits: u64,
}

// The bytes of eight ids.
fn ids_bytes(ids: [u32; MOST_IDS]) -> [u8; 32]
    ensures { result ≡ flat le32 (eight ids) }
{
    let mut b = [0; 32];
    b[..4].copy_from_slice(&le32(ids[0]));
    b[4..8].copy_from_slice(&le32(ids[1]));
    b[8..12].copy_from_slice(&le32(ids[2]));
    b[12..16].copy_from_slice(&le32(ids[3]));
    b[16..20].copy_from_slice(&le32(ids[4]));
    b[20..24].copy_from_slice(&le32(ids[5]));
    b[24..28].copy_from_slice(&le32(ids[6]));
    b[28..].copy_from_slice(&le32(ids[7]));
    b
}

// The bytes of a row.
#[tactic(auto, unfolding(crate::specs::Row::bytes_of))]
pub fn encode_row(r: Row) -> [u8; ROW]
    ensures { result ≡ bytes_of r }
{
    let mut b = [0; ROW];
    b[..4].copy_from_slice(&[MARK, r.kind, r.count, r.third]);
    b[4..36].copy_from_slice(&ids_bytes(r.ids));
    b[36..].copy_from_slice(&le64(r.bits));
    b
}

// The number of the four bytes from k on.
fn u32_at(b: &[u8], k: usize) -> u32
    requires { k + 3 < length b.now }
    ensures { result ≡ u32 b.now k }
{
    let end = k + 4;
    let mut bytes = [0; 4];
    bytes.copy_from_slice(&b[k..end]);
    u32_of(bytes)
}

// The number of the eight bytes from k on.
fn u64_at(b: &[u8], k: usize) -> u64
    requires { k + 7 < length b.now }
    ensures { result ≡ u64 b.now k }
{
    let end = k + 8;
    let mut bytes = [0; 8];
    bytes.copy_from_slice(&b[k..end]);
    u64_of(bytes)
}

// The fields of one row's bytes.
fn fields(b: &[u8]) -> Row
    requires { length b.now ≡ row_bytes }
    ensures { result ≡ held_in b.now }
{
    Row {
        kind: b[1],
        third: b[3],
        count: b[2],
        ids: [
            u32_at(b, 4),
            u32_at(b, 8),
            u32_at(b, 12),
            u32_at(b, 16),
            u32_at(b, 20),
            u32_at(b, 24),
            u32_at(b, 28),
            u32_at(b, 32),
        ],
        bits: u64_at(b, 36),
    }
}

// Row k of the bytes of a list, and one of zeros past the last whole row.
pub fn decode_row(rows: &[u8], k: usize) -> Row
    ensures { result ≡ held_in (row_of rows.now k) }
{
    if rows.len() / ROW <= k {
        return Row {
            kind: 0,
            third: 0,
            count: 0,
            ids: [0; MOST_IDS],
            bits: 0,
        };
    }
    let start = k * ROW;
    let end = start + ROW;
    fields(&rows[start..end])
}
