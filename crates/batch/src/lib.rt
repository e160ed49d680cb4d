// The header line of a batch's block: what is asked of the text that follows, and its length. `line` has what other lines are read by.
#![tactic(auto)]

ghost use Rattle.std.specs.Prelude.{◌≡◌, ◌≤◌};
ghost use Rattle.batch.specs.Header.{sized, one_more, digits_start, size_written, header_of};

pub mod line;

// The most bytes of a text.
pub const MOST: usize = 65_536;

// What a header line says: a text of so many bytes, to be listed by the plain reading or by the whole one, to be checked, or to be
// lowered.
#[derive(Clone, Copy)]
pub enum Header {
    Case(usize),
    List(usize),
    Check(usize),
    Rows(usize),
}

// A number with one digit more, where that is a digit and the number no larger than the most.
#[tactic(auto, unfolding(crate::specs::Header::one_more))]
fn one_more(n: usize, b: u8) -> Option<usize>
    requires { n ≤ MOST }
    ensures { result ≡ sized (one_more n b) }
{
    if !b.is_ascii_digit() {
        return None;
    }
    let more = n * 10 + (b - b'0') as usize;
    if more <= MOST { Some(more) } else { None }
}

// Where the digits begin.
#[tactic(auto, using(crate::proofs::Laws::starts_is), unfolding(crate::specs::Header::digits_start))]
fn digits_at(line: &[u8]) -> usize
    ensures { result ≡ digits_start line.now }
{
    if line.starts_with(b"CHECK ") { 6 } else { 5 }
}

// The number that the digits of a line write, of which there is at least one.
fn size_of(line: &[u8]) -> Option<usize>
    ensures { result ≡ sized (size_written line.now) }
{
    let at = digits_at(line);
    if line.len() <= at {
        return None;
    }
    let mut n = 0;
    for b in &line[at..] {
        n = one_more(n, *b)?;
    }
    Some(n)
}

// What a header line says, from its bytes without the new line.
#[tactic(auto, using(crate::proofs::Laws::starts_is), unfolding(crate::specs::Header::header_of))]
pub fn read_header(line: &[u8]) -> Option<Header>
    ensures { result ≡ header_of line.now }
{
    let n = size_of(line)?;
    if line.starts_with(b"CASE ") {
        return Some(Header::Case(n));
    }
    if line.starts_with(b"LIST ") {
        return Some(Header::List(n));
    }
    if line.starts_with(b"CHECK ") {
        return Some(Header::Check(n));
    }
    if line.starts_with(b"ROWS ") {
        return Some(Header::Rows(n));
    }
    None
}
