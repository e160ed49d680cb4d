// The square root of an f64, from its bits to the root's bits, in whole numbers of at most 64 bits.
#![tactic(auto)]

ghost use Rattle.std.specs.Prelude.{◌≡◌, ◌*◌, ◌^◌, ◌<◌, ◌≤◌};
ghost use Rattle.root.specs.Function.{nearest_root, scaled_root};
ghost use Rattle.root.specs.Promise.{Rooted};
ghost use Rattle.root.specs.Steps.{Scaling};

// Zero with its sign set.
const MINUS_ZERO: u64 = 0x8000_0000_0000_0000;

// Plus infinity: all bits above it, but for minus zero, are of what has no root.
const INFINITY: u64 = 0x7ff0_0000_0000_0000;

// The NaN that stands for every NaN.
const NOT_A_NUMBER: u64 = 0x7ff8_0000_0000_0000;

// The weight of the first of a number's 53 digits.
const TWO_52: u64 = 0x10_0000_0000_0000;

// The whole number nearest to the root of h * 2^52, by pairs of binary digits: 27 pairs of h, then 26 pairs of zeros.
// a holds the digits of h that are left, at the top of 54 bits; q is the root of the digits brought down so far, and rem what is left over.
fn root_core(h: u64) -> u64
    requires { h < 2 ^ 54 }
    ensures { result ≡ nearest_root (h * 2 ^ 52) }
{
    let mut q: u64 = 0;
    let mut rem: u64 = 0;
    let mut a: u64 = h;
    for _ in 0..53u64 {
        let next = rem * 4 + a / TWO_52;
        a = a % TWO_52 * 4;
        let trial = q * 4 + 1;
        if trial <= next {
            rem = next - trial;
            q = q * 2 + 1;
        } else {
            rem = next;
            q = q * 2;
        }
    }
    if q < rem { q + 1 } else { q }
}

// The 53 digits m of a number, and g, which is 1126 more than its exponent.
#[derive(Clone, Copy)]
struct Scaled {
    m: u64,
    g: u64,
}

// t * 2^52 as m * 2^g, with all the digits in m.
fn normal(t: u64) -> Scaled
    requires { (0 < t) × (t < 2 ^ 52) }
    ensures { (result.g ≤ 52) × Scaling (t * 2 ^ 52) result.m result.g }
{
    let shift = t.leading_zeros() - 11;
    Scaled {
        m: t << shift,
        g: u64::from(52 - shift),
    }
}

// The bits of the root of m * 2^e, for e = g - 1126.
fn root_scaled(x: Scaled) -> u64
    requires { (2 ^ 52 ≤ x.m) × ((x.m < 2 ^ 53) × (x.g < 2100)) }
    ensures { result ≡ scaled_root x.m x.g }
{
    let n = root_core(x.m * (1 + x.g % 2));
    (x.g + 972) / 2 * TWO_52 + (n - TWO_52)
}

// The bits of the root of the f64 with the bits b. Zero gives itself with its sign, plus infinity itself;
// below zero, or NaN, gives 7ff8000000000000.
pub fn root_bits(b: u64) -> u64
    ensures { Rooted b result }
{
    if (b == 0) | (b == MINUS_ZERO) | (b == INFINITY) {
        return b;
    }
    if INFINITY < b {
        return NOT_A_NUMBER;
    }
    let x = b / TWO_52;
    let t = b % TWO_52;
    if x == 0 {
        return root_scaled(normal(t));
    }
    root_scaled(Scaled {
        m: TWO_52 + t,
        g: x + 51,
    })
}
