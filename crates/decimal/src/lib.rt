// A decimal number, m times 10^k with a sign, as the bits of an f64: one f64 operation on exact operands, then the sign.
#![tactic(auto)]

ghost use Rattle.std.specs.Prelude.{◌≡◌, true, false, ◌^◌, ◌≤◌};
ghost use Rattle.decimal.specs.Decimal.{power, power_of, fits, whole_number, operated, Made, carried};

// 10 to the power k: Times(a) is 10^a, Over(a) is 10^-a.
#[derive(Clone, Copy)]
pub enum Scale {
    Times(u64),
    Over(u64),
}

// The first number with more than 15 digits.
pub const LIMIT: u64 = 1_000_000_000_000_000;

// k is from minus this to this.
pub const POWER: u64 = 22;

// 10^a: 1 multiplied by ten a times, each product being exact.
fn ten_to(a: u64) -> f64
    requires { a ≤ power }
    ensures { result ≡ whole_number (10 ^ a) }
{
    let mut p = 1.0;
    for _ in 0..a {
        p *= 10.0;
    }
    p
}

// How far k is from 0.
fn power_of(scale: Scale) -> u64
    ensures { result ≡ power_of scale }
{
    match scale {
        Scale::Times(a) | Scale::Over(a) => a,
    }
}

// Whether m and k are within the limits.
fn within(m: u64, scale: Scale) -> bool
    ensures { result ≡ fits m scale }
{
    (m < LIMIT) & (power_of(scale) <= POWER)
}

// m * 10^k, within the limits: one rounded multiplication or division.
fn operation(m: u64, scale: Scale) -> f64
    requires { fits m scale ≡ true }
    ensures { result ≡ operated m scale false }
{
    let x = m as f64;
    let p = ten_to(power_of(scale));
    match scale {
        Scale::Times(_) => x * p,
        Scale::Over(_) => x / p,
    }
}

// m * 10^k with its sign, within the limits: the one operation, then the sign.
fn decimal_f64(m: u64, scale: Scale, negative: bool) -> f64
    requires { fits m scale ≡ true }
    ensures { Made m scale negative result }
{
    let v = operation(m, scale);
    if negative { -v } else { v }
}

// The bits of m * 10^k with its sign, where m has at most 15 digits and k is from -22 to 22; else it is not carried.
pub fn decimal(m: u64, scale: Scale, negative: bool) -> Option<u64>
    ensures { result ≡ carried m scale negative }
{
    if within(m, scale) {
        Some(decimal_f64(m, scale, negative).to_bits())
    } else {
        None
    }
}
