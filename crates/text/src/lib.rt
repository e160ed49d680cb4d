// Where reading stands in a text, and the smallest things that are read there: spaces, labels, words, bytes, new lines.
// Each reader goes on from a place, and hands on a stand that is no place.
#![tactic(auto)]

ghost use Rattle.std.specs.Prelude.{◌≡◌, ℕ, Bool, get_or};
ghost use Rattle.text.specs.Text.{or_stand, missed, due, is_space, is_alphanum, run_to, Tests, ws_on, label_on, with_second, suffixed_on, dotted_on, word_at, word_on, byte_on, newline_on};

use refusal::Refusal;

// A place of the text; nothing read; or a refusal. No `Result` of a place or of why there is none: it took a quarter more instructions over all
// of reading, as each stand that is handed on is larger.
#[derive(Clone, Copy)]
pub enum Stand {
    At(usize),
    Nothing,
    Refused(Refusal),
}

// A label by its first byte and its length, and where reading stands behind it; both are 0 where none was read, as `label_on` says.
#[derive(Clone, Copy)]
pub struct ReadLabel {
    pub start: usize,
    pub len: usize,
    pub then: Stand,
}

// What was read, or else another stand.
pub fn or_stand(read: Stand, other: Stand) -> Stand
    ensures { result ≡ or_stand read read other }
{
    let Stand::Nothing = read else {
        return read;
    };
    other
}

// What is due at a place is refused there by a number.
fn missing(stand: Stand, number: u8) -> Stand
    ensures { result ≡ missed stand number }
{
    let Stand::At(place) = stand else {
        return Stand::Nothing;
    };
    Stand::Refused(Refusal { number, place })
}

// What was due and was not read is refused, by a number, at the place where it was due.
pub fn refuse(stand: Stand, read: Stand, number: u8) -> Stand
    ensures { result ≡ due stand read number }
{
    or_stand(read, missing(stand, number))
}

// The byte at a place, and 0 past the end.
pub fn byte_at(text: &[u8], at: usize) -> u8
    ensures { result ≡ get_or text.now at 0 }
{
    text.get(at).copied().unwrap_or(0)
}

// A blank or a tab.
fn is_space(b: u8) -> bool
    ensures { result ≡ is_space b }
{
    matches!(b, b' ' | b'\t')
}

// An ASCII letter or digit.
fn is_alphanum(b: u8) -> bool
    ensures { result ≡ is_alphanum b }
{
    b.is_ascii_alphanumeric()
}

// The place after the bytes at a place that pass a test.
fn run_to<F: Fn(u8) -> bool>(text: &[u8], at: usize, passes: F) -> usize
    requires { F.IsAlwaysCallable passes }
    ensures { (p : ℕ → Bool) → Tests (F.post passes) p → result ≡ run_to p text.now at }
{
    for i in at..text.len() {
        if !passes(text[i]) {
            return i;
        }
    }
    at.max(text.len())
}

// Any count of spaces, none too.
pub fn ws(text: &[u8], stand: Stand) -> Stand
    ensures { result ≡ ws_on text.now stand }
{
    let Stand::At(at) = stand else {
        return stand;
    };
    Stand::At(run_to(text, at, is_space))
}

// One or more letters and digits.
pub fn parse_label(text: &[u8], stand: Stand) -> ReadLabel
    ensures { result ≡ label_on text.now stand }
{
    let Stand::At(at) = stand else {
        return ReadLabel {
            start: 0,
            len: 0,
            then: stand,
        };
    };
    let next = run_to(text, at, is_alphanum);
    if next <= at {
        return ReadLabel {
            start: 0,
            len: 0,
            then: Stand::Nothing,
        };
    }
    ReadLabel {
        start: at,
        len: next - at,
        then: Stand::At(next),
    }
}

// The first label up to the end of the second, where there is a second.
fn join(first: ReadLabel, second: ReadLabel) -> ReadLabel
    ensures { result ≡ with_second first second }
{
    let Stand::At(next) = second.then else {
        return first;
    };
    ReadLabel {
        start: first.start,
        len: next.saturating_sub(first.start),
        then: second.then,
    }
}

// A label with a point and a second label behind it, where both stand there.
pub fn opt_suffix(text: &[u8], first: ReadLabel) -> ReadLabel
    ensures { result ≡ suffixed_on text.now first }
{
    let then = first.then;
    let dot = byte(text, then, b'.');
    let second = parse_label(text, dot);
    join(first, second)
}

// A label with an optional point and second label.
pub fn parse_label_opt_suffix(text: &[u8], stand: Stand) -> ReadLabel
    ensures { result ≡ dotted_on text.now stand }
{
    let first = parse_label(text, stand);
    opt_suffix(text, first)
}

// The place after a word at a place, where it stands there.
fn word_at(text: &[u8], w: &[u8], at: usize) -> Stand
    ensures { result ≡ word_at text.now w.now at }
{
    // Byte by byte: `starts_with` took a fifth more instructions over all of reading.
    let mut p = at;
    for b in w {
        if text.len() <= p {
            return Stand::Nothing;
        }
        if text[p] != *b {
            return Stand::Nothing;
        }
        p += 1;
    }
    Stand::At(p)
}

// The bytes of a word.
pub fn word(text: &[u8], stand: Stand, w: &[u8]) -> Stand
    ensures { result ≡ word_on text.now stand w.now }
{
    let Stand::At(at) = stand else {
        return stand;
    };
    word_at(text, w, at)
}

// One byte.
pub fn byte(text: &[u8], stand: Stand, b: u8) -> Stand
    ensures { result ≡ byte_on text.now stand b }
{
    let Stand::At(at) = stand else {
        return stand;
    };
    let Some(here) = text.get(at) else {
        return Stand::Nothing;
    };
    if *here == b {
        Stand::At(at + 1)
    } else {
        Stand::Nothing
    }
}

// A new line: byte 10 and no other.
pub fn newline(text: &[u8], stand: Stand) -> Stand
    ensures { result ≡ newline_on text.now stand }
{
    byte(text, stand, b'\n')
}
