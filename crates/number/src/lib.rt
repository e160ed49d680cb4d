// Numbers and expressions at a place of a text, as the bits of an f64.
#![tactic(auto)]

ghost use Rattle.std.specs.Prelude.{◌≡◌, Bool, true, false, MatchOption, ℕ, ◌+◌, ◌-◌, ◌*◌, ◌^◌, ◌<◌, ◌≤◌};
ghost use Rattle.text.specs.Text.{refused_at, Tests};
ghost use Rattle.decimal.specs.Decimal.{carried};
ghost use Rattle.number.specs.Number.{is_digit, is_sign, is_point, is_exponent, is_word, step_over, no_digit, capped, Run, Joined, exponent_cap, carried_by, exponent_at, capped_exponent, valued, scaled, no_number, number_at, number_on, closed, expr_at, expr_on};

use decimal::Scale;
use refusal::Refusal;
use text::Stand;

// The bits of a number, and where reading stands behind it; the bits are 0 where none was read, as `number_on` says.
#[derive(Clone, Copy)]
pub struct Number {
    pub bits: u64,
    pub then: Stand,
}

// Exponents of this size and more are told apart no more: no text has so many digits after a point that one of them is carried.
const EXPONENT_CAP: u64 = 9_223_372_036_854_775_830;

// The most `sqrt(` that stand inside one another.
const DEPTH: u32 = 8;

// + or -
fn is_sign(b: u8) -> bool
    ensures { result ≡ is_sign b }
{
    matches!(b, b'+' | b'-')
}

fn is_point(b: u8) -> bool
    ensures { result ≡ is_point b }
{
    b == b'.'
}

// e or E
fn is_exponent(b: u8) -> bool
    ensures { result ≡ is_exponent b }
{
    matches!(b, b'e' | b'E')
}

// i, I, n or N: a word for infinity or for no number may begin so.
fn is_word(b: u8) -> bool
    ensures { result ≡ is_word b }
{
    matches!(b, b'i' | b'I' | b'n' | b'N')
}

// The place after a byte that passes a test, and the same place where none stands there.
fn step_over<F: Fn(u8) -> bool>(text: &[u8], at: usize, passes: F) -> usize
    requires { F.IsAlwaysCallable passes }
    ensures { (test : ℕ → Bool) → test 0 ≡ false → Tests (F.post passes) test → result ≡ step_over test text.now at }
{
    let Some(here) = text.get(at) else {
        return at;
    };
    if passes(*here) { at + 1 } else { at }
}

// The number of one more digit, up to a limit.
fn push(m: u64, digit: u8, limit: u64) -> u64
    requires { (m ≤ limit) × (limit ≤ exponent_cap) × (is_digit digit ≡ true) }
    ensures { result ≡ capped limit (m * 10 + (digit - 48)) }
{
    m.saturating_mul(10)
        .saturating_add(u64::from(digit - b'0'))
        .min(limit)
}

// The number that digits write, up to a limit, and the place after them.
#[derive(Clone, Copy)]
struct Digits {
    value: u64,
    next: usize,
}

// The digits at a place, behind those that wrote `start`.
fn digits_at(text: &[u8], at: usize, start: u64, limit: u64) -> Digits
    requires { (start ≤ limit) × (limit ≤ exponent_cap) }
    ensures { Run text.now at start limit result.value result.next }
{
    let mut value = start;
    for next in at..text.len() {
        let b = text[next];
        if !b.is_ascii_digit() {
            return Digits { value, next };
        }
        value = push(value, b, limit);
    }
    Digits {
        value,
        next: at.max(text.len()),
    }
}

// The digits before and after a point: the number that they write, how many stand after it, and where they end.
#[derive(Clone, Copy)]
struct Mantissa {
    m: u64,
    count: u64,
    end: usize,
}

// Digits, an optional point, and digits; there is at least one.
fn mantissa_at(text: &[u8], first: usize) -> Option<Mantissa>
    ensures { MatchOption result (no_digit text.now first ≡ true) (λ digits. (no_digit text.now first ≡ false) × Joined text.now first digits.m digits.count digits.end) }
{
    let whole = digits_at(text, first, 0, decimal::LIMIT);
    let part = step_over(text, whole.next, is_point);
    let run = digits_at(text, part, whole.value, decimal::LIMIT);
    if (whole.next == first) & (run.next == part) {
        return None;
    }
    Some(Mantissa {
        m: run.value,
        count: (run.next - part) as u64,
        end: run.next,
    })
}

// An exponent: its sign, its size and the place after it.
#[derive(Clone, Copy)]
struct Power {
    negative: bool,
    size: u64,
    next: usize,
}

// The exponent at a place, 0 where there is none; none is given for an `e` with no digits behind it.
fn exponent_at(text: &[u8], at: usize) -> Option<Power>
    ensures { result ≡ capped_exponent (exponent_at text.now at) }
{
    if !is_exponent(text::byte_at(text, at)) {
        return Some(Power {
            negative: false,
            size: 0,
            next: at,
        });
    }
    let sign = at + 1;
    let first = step_over(text, sign, is_sign);
    let run = digits_at(text, first, 0, EXPONENT_CAP);
    if run.next <= first {
        return None;
    }
    Some(Power {
        negative: text::byte_at(text, sign) == b'-',
        size: run.value,
        next: run.next,
    })
}

// The exponent less the count of digits after the point: a scale that carries what that one carries.
fn scale_of(exponent: Power, count: u64) -> Scale
    requires { count < 2 ^ 63 }
    ensures { (m : ℕ) (negative : Bool) → carried m result negative ≡ carried_by m negative exponent.negative exponent.size count }
{
    if exponent.negative {
        if decimal::POWER < exponent.size {
            return Scale::Over(exponent.size);
        }
        return Scale::Over(exponent.size + count);
    }
    if count <= exponent.size {
        return Scale::Times(exponent.size - count);
    }
    Scale::Over(count - exponent.size)
}

// No number: where reading stands instead.
fn no_number(then: Stand) -> Number
    ensures { result ≡ no_number then }
{
    Number { bits: 0, then }
}

// A refusal at a place.
fn refused(number: u8, place: usize) -> Number
    ensures { result ≡ no_number (refused_at number place) }
{
    no_number(Stand::Refused(Refusal { number, place }))
}

// The bits with the place after them, or 8 at the number's first byte.
fn value(at: usize, next: usize, carried: Option<u64>) -> Number
    ensures { result ≡ valued at next carried }
{
    match carried {
        Some(bits) => Number {
            bits,
            then: Stand::At(next),
        },
        None => refused(8, at),
    }
}

// The number with these digits and this exponent.
fn scale_by(at: usize, negative: bool, digits: Mantissa, exponent: Option<Power>) -> Number
    requires { digits.count < 2 ^ 63 }
    ensures { result ≡ scaled at negative digits.m digits.count exponent }
{
    let Some(power) = exponent else {
        return refused(8, at);
    };
    let scale = scale_of(power, digits.count);
    value(at, power.next, decimal::decimal(digits.m, scale, negative))
}

// A number at a place.
fn number_at(text: &[u8], at: usize) -> Number
    ensures { result ≡ number_at text.now at }
{
    let first = step_over(text, at, is_sign);
    if is_word(text::byte_at(text, first)) {
        return refused(8, at);
    }
    let Some(digits) = mantissa_at(text, first) else {
        return no_number(Stand::Nothing);
    };
    let exponent = exponent_at(text, digits.end);
    let negative = text::byte_at(text, at) == b'-';
    scale_by(at, negative, digits, exponent)
}

// A number.
pub fn parse_number(text: &[u8], stand: Stand) -> Number
    ensures { result ≡ number_on text.now stand }
{
    let Stand::At(at) = stand else {
        return no_number(stand);
    };
    number_at(text, at)
}

// The root of what was read, where `)` stands behind it.
fn close_root(text: &[u8], inner: Number) -> Number
    ensures { result ≡ closed text.now inner }
{
    let closed = text::byte(text, inner.then, b')');
    let Stand::At(_) = closed else {
        return no_number(closed);
    };
    Number {
        bits: root::root_bits(inner.bits),
        then: closed,
    }
}

// A number, or `sqrt(`, an expression, `)`, with `left` more roots inside one another allowed.
fn nested(text: &[u8], at: usize, left: u32) -> Number
    ensures { result ≡ expr_at left text.now at }
{
    let Stand::At(inside) = text::word(text, Stand::At(at), b"sqrt(") else {
        return number_at(text, at);
    };
    if left == 0 {
        return refused(9, at);
    }
    let inner = nested(text, inside, left - 1);
    close_root(text, inner)
}

// An expression: a number, or a root of an expression, at most eight roots deep.
pub fn parse_number_expr(text: &[u8], stand: Stand) -> Number
    ensures { result ≡ expr_on text.now stand }
{
    let Stand::At(at) = stand else {
        return no_number(stand);
    };
    nested(text, at, DEPTH)
}
