// Numbers of two, four and eight bytes, the lowest byte first: written to bytes, and read from them. Each width has its own promise.
#![tactic(auto)]

ghost use Rattle.std.specs.Prelude.{◌≡◌, [], ◌∷◌};
ghost use Rattle.little.specs.Little.{le, le_at};

// A number as two bytes; of one that is too large, its lowest two.
pub fn le16(n: usize) -> [u8; 2]
    ensures { result ≡ le 2 n }
{
    ((n % 65_536) as u16).to_le_bytes()
}

// A number as four bytes.
pub fn le32(n: u32) -> [u8; 4]
    ensures { result ≡ le 4 n }
{
    n.to_le_bytes()
}

// A number as eight bytes.
pub fn le64(n: u64) -> [u8; 8]
    ensures { result ≡ le 8 n }
{
    n.to_le_bytes()
}

// The number of two bytes.
pub fn u16_of(a: u8, b: u8) -> u16
    ensures { result ≡ le_at 2 (a ∷ b ∷ []) 0 }
{
    u16::from_le_bytes([a, b])
}

// The number of four bytes.
pub fn u32_of(b: [u8; 4]) -> u32
    ensures { result ≡ le_at 4 b 0 }
{
    u32::from_le_bytes(b)
}

// The number of eight bytes.
pub fn u64_of(b: [u8; 8]) -> u64
    ensures { result ≡ le_at 8 b 0 }
{
    u64::from_le_bytes(b)
}
