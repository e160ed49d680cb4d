// Answers each line of standard input, of which at most a mebibyte is read. A line is an expression, read from its first
// byte: its bits and the place after it, `refused` with number and place, or `nothing`. A line of `root`, a blank and
// sixteen hex digits is answered by the bits of the root of the number with these bits.
#![tactic(auto)]

ghost use Rattle.std.specs.Prelude.{◌≡◌, ◌<◌, IfSome, length};

use number::Number;
use std::io;
use std::io::Write;
use text::Stand;

// The most bytes of input.
const MOST: usize = 1048576;

// The value of a hex digit, whose letters are small.
fn hex_digit(b: u8) -> Option<u64>
    ensures { IfSome result (λ d. d < 16) }
{
    match b {
        b'0'..=b'9' => Some(u64::from(b - b'0')),
        b'a'..=b'f' => Some(u64::from(b - b'a') + 10),
        _ => None,
    }
}

// The bits whose root a line asks for, by sixteen hex digits behind the word.
fn asked(line: &[u8]) -> Option<u64> {
    let digits = line.strip_prefix(b"root ")?;
    if digits.len() != 16 {
        return None;
    }
    let mut bits: u64 = 0;
    for b in digits {
        bits = (bits << 4) | hex_digit(*b)?;
    }
    Some(bits)
}

// Prints the sixteen hex digits of a number at once: `{:016x}` would write the zeros before it by themselves.
fn put_hex<W: Write>(out: &mut W, n: u64) -> io::Result<()> {
    out.write_all(&print::hex(n))
}

// Prints what an expression gave.
fn put_number<W: Write>(out: &mut W, read: Number) -> io::Result<()> {
    match read.then {
        Stand::At(next) => {
            put_hex(out, read.bits)?;
            write!(out, " {next}")
        }
        Stand::Nothing => out.write_all(b"nothing"),
        Stand::Refused(refusal) => write!(out, "refused {} {}", refusal.number, refusal.place),
    }
}

// Prints the answer to a line.
fn answer<W: Write>(out: &mut W, line: &[u8]) -> io::Result<()> {
    match asked(line) {
        Some(bits) => put_hex(out, root::root_bits(bits))?,
        None => put_number(out, number::parse_number_expr(line, Stand::At(0)))?,
    }
    out.write_all(b"\n")
}

// Prints the answers to all lines.
fn answer_all<W: Write>(out: &mut W, text: &[u8]) -> io::Result<()> {
    for line in text.split_inclusive(|b| *b == b'\n') {
        answer(out, line.strip_suffix(b"\n").unwrap_or(line))?;
    }
    Ok(())
}

// Room for the input: a mebibyte that is written out in `main` is more than the check can look through.
fn room() -> [u8; MOST]
    ensures { 1048576 ≡ length result }
{
    [0; MOST]
}

fn main(rt: HostRuntime) -> io::Result<()> {
    let mut input = room();
    let n = stream::read_full(&mut rt.stdin(), &mut input)?;
    answer_all(&mut rt.stdout(), &input[..n])
}
