// The forms that begin with a keyword, by their rows in the table of kinds.
ghost use Rattle.std.specs.Prelude.{◌≡◌, true, false, ◌≤◌, length, take};
ghost use Rattle.text.specs.Text.{word_on};
ghost use Rattle.text.specs.declared.Stand.TheVariants.{At, Nothing};
ghost use Rattle.kinds.specs.Kinds.{word_of};
ghost use Rattle.forms.specs.Forms.{keyword_on, keyword_kinds, first_of};
ghost use Rattle.forms.specs.Steps.{meant_line, none_begins, KindsFrom};

use crate::pieces;
use crate::pieces::Parsed;
use record::Record;
use text::Stand;

// The keyword forms in the Rust's order.
static KEYWORD_KINDS: [u8; 18] = [
    6, // horizontal
    11, // coincident
    12, // point_arc_coincident
    13, // midpoint
    14, // symmetric
    5, // vertical
    7, // distance
    8, // parallel
    9, // perpendicular
    10, // lines_at_angle
    15, // radius
    16, // tangent
    17, // arc_radius
    23, // arc_length
    20, // is_arc
    21, // point_line_distance
    22, // line
    19, // lines_equal_length
];

// Whether a kind's word may stand at a place, by its first two bytes.
#[tactic(auto, using(crate::proofs::Words::not_begun, crate::proofs::Words::past_end))]
pub(crate) fn may_stand(text: &[u8], at: usize, kind: u8) -> bool
    requires { 2 ≤ length (word_of kind) }
    ensures { result ≡ false → word_on text.now (At at) (word_of kind) ≡ Nothing }
{
    at < text.len() && kinds::may_begin(kind, text[at], text::byte_at(text, at + 1))
}

// A keyword form, by its row in the table.
fn keyword_form(text: &[u8], at: usize, kind: u8) -> Parsed
    ensures { meant_line result ≡ keyword_on text.now (At at) kind }
{
    let labels = kinds::cell_of(kind, kinds::LABELS);
    let s = text::word(text, Stand::At(at), kinds::word_of(kind));
    let s = text::ws(text, s);
    let s = text::byte(text, s, b'(');
    let s = text::ws(text, s);
    let a = text::parse_label(text, s);
    let b = pieces::more(text, a.then, 1 < labels);
    let c = pieces::more(text, b.then, 2 < labels);
    let d = pieces::more(text, c.then, 3 < labels);
    let n = pieces::parse_amount(text, d.then, kinds::cell_of(kind, kinds::SORT));
    let spelling = kinds::cell_of(kind, kinds::SPELLING);
    let s = pieces::gap(text, n.then, spelling == kinds::GAP);
    let first = Record {
        kind,
        third: n.third,
        count: labels,
        labels: [
            pieces::view_from(a),
            pieces::view_from(b),
            pieces::view_from(c),
            pieces::view_from(d),
        ],
        x: n.bits,
        y: 0,
    };
    Parsed {
        first,
        second: None,
        then: text::byte(text, s, b')'),
    }
}

// A keyword form, where its word may stand there.
#[tactic(auto, using(crate::proofs::Words::no_keyword))]
fn try_keyword(text: &[u8], at: usize, kind: u8) -> Parsed
    requires { 2 ≤ length (word_of kind) }
    ensures { meant_line result ≡ keyword_on text.now (At at) kind }
{
    if may_stand(text, at, kind) {
        keyword_form(text, at, kind)
    } else {
        pieces::no_line(Stand::Nothing)
    }
}

// A place of the order before which no keyword begins with this byte.
fn skip_to(b: u8) -> usize
    ensures { (result ≤ 18) × (none_begins b (take result keyword_kinds) ≡ true) }
{
    match b {
        b'c' => 1,
        b'p' => 2,
        b'm' => 3,
        b's' => 4,
        b'v' => 5,
        b'd' => 6,
        b'l' => 9,
        b'r' => 10,
        b't' => 11,
        b'a' => 12,
        b'i' => 14,
        _ => 0,
    }
}

// The keyword forms in their order, but for some at its start that do not begin with this byte.
fn kinds_from(b: u8) -> &'static [u8]
    ensures { KindsFrom b result.now }
{
    &KEYWORD_KINDS[skip_to(b)..]
}

// The first keyword form that reads at a place.
pub(crate) fn keyword_forms(text: &[u8], at: usize) -> Parsed
    ensures { meant_line result ≡ first_of text.now (At at) keyword_kinds }
{
    for kind in kinds_from(text::byte_at(text, at)) {
        let line = try_keyword(text, at, *kind);
        let Stand::Nothing = line.then else {
            return line;
        };
    }
    pieces::no_line(Stand::Nothing)
}
