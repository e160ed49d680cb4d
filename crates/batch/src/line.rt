// Lines that a program is asked by: where one ends, and the numbers among its words.
ghost use Rattle.std.specs.Prelude.{◌≡◌, ◌<◌, ◌==◌, drop, position};
ghost use Rattle.batch.specs.Line.{Until, word_after, one_digit, word_number};

// A tenth of 2^64: a number above it has no room for one more digit.
const TENTH: u64 = 1_844_674_407_370_955_161;

// How far behind a place the first byte b stands, if there is one.
fn ahead(text: &[u8], at: usize, b: u8) -> Option<usize>
    ensures { result ≡ position (λ x. x == b) (drop at text.now) }
{
    text.iter().skip(at).position(|x| *x == b)
}

// The place of the first byte b from a place on, or the text's end.
pub fn until(text: &[u8], at: usize, b: u8) -> usize
    ensures { Until text.now at b result }
{
    match ahead(text, at, b) {
        Some(n) => at + n,
        None => at.max(text.len()),
    }
}

// A number with one digit more, where it is asked for: any other byte is passed over. The flag is the definition's, which `word_number` rests on.
#[tactic(auto, unfolding(crate::specs::Line::one_digit))]
fn one_digit(asked: bool, n: u64, b: u8) -> u64
    ensures { result ≡ one_digit asked n b }
{
    if !asked || !b.is_ascii_digit() || TENTH < n {
        return n;
    }
    (n * 10).wrapping_add((b - b'0') as u64)
}

// The word that a byte stands in, from the word before it.
fn word_after(word: usize, b: u8) -> usize
    requires { word < 18446744073709551615 }
    ensures { result ≡ word_after word b }
{
    if b == b' ' { word + 1 } else { word }
}

// The number that the digits of word k of a line write, and 0 where it has none. Words stand behind a blank each, the first is word 0.
pub fn number(line: &[u8], k: usize) -> u64
    ensures { result ≡ word_number k line.now }
{
    let mut word = 0;
    let mut n = 0;
    for b in line {
        word = word_after(word, *b);
        n = one_digit(word == k, n, *b);
    }
    n
}
