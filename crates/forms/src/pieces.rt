// What forms are made of: bytes with spaces around them, one of two words, point pairs, labels behind commas, numbers of a row's sort.
ghost use Rattle.std.specs.Prelude.{◌≡◌};
ghost use Rattle.text.specs.Text.{no_label};
ghost use Rattle.forms.specs.Steps.{IfRead};
ghost use Rattle.forms.specs.Forms.{view_from, one_labelled, around_on, either_on, component_on, pair_on, more_on, angle_on, plain_amount, amount_on, gap_on};

use number::Number;
use record::{Record, View};
use text::{ReadLabel, Stand};

// A line in short: its first record, the number of a second one where there is one, which differs only in its third byte and that, and where
// reading stands behind it.
#[derive(Clone, Copy)]
pub struct Parsed {
    pub first: Record,
    pub second: Option<u64>,
    pub then: Stand,
}

impl Parsed {
    // This line, or another one where nothing was read.
    pub(crate) fn or_else<F: FnOnce() -> Parsed>(self, other: F) -> Parsed
        requires { F.IsAlwaysCallable other }
        ensures { IfRead self.then (result ≡ self) (F.post other result) }
    {
        let Stand::Nothing = self.then else {
            return self;
        };
        other()
    }
}

// One of two words: 1 for the first, 2 for the second.
#[derive(Clone, Copy)]
pub struct Side {
    pub third: u8,
    pub then: Stand,
}

// A point pair.
#[derive(Clone, Copy)]
pub struct Pair {
    pub x: u64,
    pub y: u64,
    pub then: Stand,
}

// The number of a form, with its third byte.
#[derive(Clone, Copy)]
pub struct Amount {
    pub bits: u64,
    pub third: u8,
    pub then: Stand,
}

// No line: where reading stands instead.
pub(crate) fn no_line(then: Stand) -> Parsed
    ensures { result.then ≡ then }
{
    Parsed {
        first: record::no_record(),
        second: None,
        then,
    }
}

// No label: where reading stands instead.
pub(crate) fn no_label(then: Stand) -> ReadLabel
    ensures { result ≡ no_label then }
{
    ReadLabel {
        start: 0,
        len: 0,
        then,
    }
}

// The part of the text that a label takes. It is no `From`, since neither type is of this crate.
pub(crate) fn view_from(l: ReadLabel) -> View
    ensures { result ≡ view_from l }
{
    View {
        start: l.start,
        len: l.len,
    }
}

// A record with one label.
pub(crate) fn labelled(kind: u8, third: u8, l: ReadLabel, x: u64, y: u64) -> Record
    ensures { result ≡ one_labelled kind third l x y }
{
    record::one_label(kind, third, view_from(l), x, y)
}

// A byte, with spaces around it.
#[tactic(auto, unfolding(crate::specs::Forms::around_on))]
pub(crate) fn around(text: &[u8], stand: Stand, b: u8) -> Stand
    ensures { result ≡ around_on text.now stand b }
{
    let s = text::ws(text, stand);
    let s = text::byte(text, s, b);
    text::ws(text, s)
}

// One of two words.
#[tactic(auto, unfolding(crate::specs::Forms::either_on))]
pub(crate) fn either(text: &[u8], stand: Stand, a: &[u8], b: &[u8]) -> Side
    ensures { result ≡ either_on text.now stand a.now b.now }
{
    let first = text::word(text, stand, a);
    let Stand::Nothing = first else {
        return Side {
            third: 1,
            then: first,
        };
    };
    Side {
        third: 2,
        then: text::word(text, stand, b),
    }
}

// x or y.
pub(crate) fn parse_component(text: &[u8], stand: Stand) -> Side
    ensures { result ≡ component_on text.now stand }
{
    either(text, stand, b"x", b"y")
}

// A point pair: two numbers in brackets.
#[tactic(auto, unfolding(crate::specs::Forms::pair_on))]
pub(crate) fn parse_point(text: &[u8], stand: Stand) -> Pair
    ensures { result ≡ pair_on text.now stand }
{
    let s = text::byte(text, stand, b'(');
    let s = text::ws(text, s);
    let a = number::parse_number(text, s);
    let s = text::byte(text, a.then, b',');
    let s = text::ws(text, s);
    let b = number::parse_number(text, s);
    Pair {
        x: a.bits,
        y: b.bits,
        then: text::byte(text, b.then, b')'),
    }
}

// One more label behind a comma, where there is one.
#[tactic(auto, unfolding(crate::specs::Forms::more_on))]
pub(crate) fn more(text: &[u8], stand: Stand, on: bool) -> ReadLabel
    ensures { result ≡ more_on text.now stand on }
{
    if on {
        text::parse_label(text, around(text, stand, b','))
    } else {
        no_label(stand)
    }
}

// A number, then `deg` or `rad`.
#[tactic(auto, unfolding(crate::specs::Forms::angle_on))]
fn parse_angle(text: &[u8], stand: Stand) -> Amount
    ensures { result ≡ angle_on text.now stand }
{
    let n = number::parse_number(text, stand);
    let unit = either(text, n.then, b"deg", b"rad");
    Amount {
        bits: n.bits,
        third: unit.third,
        then: unit.then,
    }
}

// A number that stands alone in its place.
impl From<Number> for Amount {
    fn from(n: Number) -> Amount
        ensures { result ≡ plain_amount n }
    {
        Amount {
            bits: n.bits,
            third: 0,
            then: n.then,
        }
    }
}

// The number behind a comma, of a row's sort.
#[tactic(auto, unfolding(crate::specs::Forms::amount_on))]
pub(crate) fn parse_amount(text: &[u8], stand: Stand, sort: u8) -> Amount
    ensures { result ≡ amount_on text.now stand sort }
{
    if sort == kinds::NONE {
        return Amount {
            bits: 0,
            third: 0,
            then: stand,
        };
    }
    let s = around(text, stand, b',');
    match sort {
        kinds::NUMBER => Amount::from(number::parse_number(text, s)),
        kinds::EXPRESSION => Amount::from(number::parse_number_expr(text, s)),
        _ => parse_angle(text, s),
    }
}

// The spaces before the closing bracket, where a row allows them.
#[tactic(auto, unfolding(crate::specs::Forms::gap_on))]
pub(crate) fn gap(text: &[u8], stand: Stand, on: bool) -> Stand
    ensures { result ≡ gap_on text.now stand on }
{
    if on { text::ws(text, stand) } else { stand }
}
