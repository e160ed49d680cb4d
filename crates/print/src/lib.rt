// The bytes that programs print of a number: sixteen hex digits, or its decimal digits.
#![tactic(auto)]

ghost use Rattle.std.specs.Prelude.{◌≡◌, ◌≤◌, ◌<◌, length, take};
ghost use Rattle.print.specs.Print.{sign_of, last_digits, hex_of, width, digits_of};

// The signs of the digits, by their value.
const SIGNS: [u8; 16] = *b"0123456789abcdef";

// The sign of a digit.
fn sign(d: u64) -> u8
    requires { d < 16 }
    ensures { result ≡ sign_of d }
{
    SIGNS[d as usize]
}

// Fills a place with the last digits of a number in a base, the most significant first. By index: of what is written through `iter_mut` a
// proof knows no element.
fn fill(place: &mut [u8], n: u64, base: u64)
    requires { (0 < base) × (base ≤ 16) }
    ensures { place.new ≡ last_digits base (length place.old) n }
{
    let mut rest = n;
    for i in (0..place.len()).rev() {
        place[i] = sign(rest % base);
        rest /= base;
    }
}

// The sixteen hex digits of a number.
#[tactic(auto, unfolding(crate::specs::Print::hex_of))]
pub fn hex(n: u64) -> [u8; 16]
    ensures { result ≡ hex_of n }
{
    let mut bytes = [0u8; 16];
    fill(&mut bytes, n, 16);
    bytes
}

// The decimal digits of a number, in the first `len` bytes; zero bytes follow. Two fields, since there is no heap and `digits_of` names both.
#[derive(Clone, Copy)]
pub struct Digits {
    pub bytes: [u8; 20],
    pub len: usize,
}

impl Digits {
    // The digits alone.
    pub fn as_slice(&self) -> &[u8]
        ensures { result.now ≡ take self.now.len self.now.bytes }
    {
        &self.bytes[..self.len.min(20)]
    }
}

// How many decimal digits a number has.
fn count(n: u64) -> usize
    ensures { result ≡ width n }
{
    if n == 0 { 1 } else { n.ilog10() as usize + 1 }
}

// The decimal digits of a number.
pub fn decimal(n: u64) -> Digits
    ensures { result ≡ digits_of n }
{
    let len = count(n);
    let mut bytes = [0u8; 20];
    fill(&mut bytes[..len], n, 10);
    Digits { bytes, len }
}
