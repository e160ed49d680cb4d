// THE table of the 25 kinds, which reader, check and lowering all read, and the words of their forms beside it.
#![tactic(auto)]

ghost use Rattle.std.specs.Prelude.{◌≡◌, ◌<◌, get_or};
ghost use Rattle.kinds.specs.Kinds.{table, cell, word_of, padded, begins};

// Kinds, columns and codes are numbers, no enums: `look` and `cell_of` answer for each byte, and `look` for each table of bytes that is lent.

// The kinds that are told apart: the declarations, the first and the last rule, a component that is fixed, one of a center that is fixed,
// and the guesses of a pair and of a number.
pub const NEW_POINT: u8 = 1;

pub const NEW_CIRCLE: u8 = 2;

pub const NEW_ARC: u8 = 3;

pub const FIRST_RULE: u8 = 4;

pub const FIX_COMPONENT: u8 = 4;

pub const FIX_CENTER: u8 = 18;

pub const LAST_RULE: u8 = 23;

pub const PAIR_GUESS: u8 = 24;

pub const NUMBER_GUESS: u8 = 25;

// The columns of the table: how many labels a kind has, what each of the four label places needs, its third byte, the sort of its
// number, and how its form is spelled.
pub const LABELS: usize = 0;

pub const NEEDS: usize = 1;

pub const THIRDS: usize = 5;

pub const SORT: usize = 6;

pub const SPELLING: usize = 7;

// What a label's place needs: a new label, a point, a circle, an arc, a circle or an arc, what may be assigned, a part
// that is guessed as a pair, or one that is guessed as a number. A place that the kind does not use has 0.
pub const NEW: u8 = 0;

pub const POINT: u8 = 1;

pub const CIRCLE: u8 = 2;

pub const ARC: u8 = 3;

pub const ROUND: u8 = 4;

pub const ASSIGNED: u8 = 5;

pub const PAIR_PART: u8 = 6;

pub const NUMBER_PART: u8 = 7;

pub const UNUSED: u8 = 0;

// The third bytes: 0, or 1 and 2.
pub const ZERO: u8 = 0;

pub const EITHER: u8 = 2;

// The sorts of number: none, a number, an expression, an angle, a pair.
pub const NONE: u8 = 0;

pub const NUMBER: u8 = 1;

pub const EXPRESSION: u8 = 2;

pub const ANGLE: u8 = 3;

pub const PAIR: u8 = 4;

// The spellings: plain, with spaces allowed before the closing bracket, or with a point and a second part allowed in the label.
pub const PLAIN: u8 = 0;

pub const GAP: u8 = 1;

pub const DOTTED: u8 = 2;

// How many rows and columns there are.
const ROWS: usize = 26;

const COLUMNS: usize = 8;

// A row for each kind, indexed by its number; row 0 is no kind.
pub const KINDS: [[u8; COLUMNS]; ROWS] = [
    [0, UNUSED, UNUSED, UNUSED, UNUSED, ZERO, NONE, PLAIN], // 0 no kind
    [1, NEW, UNUSED, UNUSED, UNUSED, ZERO, NONE, PLAIN], // 1 DeclarePoint
    [1, NEW, UNUSED, UNUSED, UNUSED, ZERO, NONE, PLAIN], // 2 DeclareCircle
    [1, NEW, UNUSED, UNUSED, UNUSED, ZERO, NONE, PLAIN], // 3 DeclareArc
    [1, ASSIGNED, UNUSED, UNUSED, UNUSED, EITHER, NUMBER, DOTTED], // 4 FixPointComponent
    [2, POINT, POINT, UNUSED, UNUSED, ZERO, NONE, GAP], // 5 Vertical
    [2, POINT, POINT, UNUSED, UNUSED, ZERO, NONE, GAP], // 6 Horizontal
    [2, POINT, POINT, UNUSED, UNUSED, ZERO, EXPRESSION, PLAIN], // 7 Distance
    [4, POINT, POINT, POINT, POINT, ZERO, NONE, GAP], // 8 Parallel
    [4, POINT, POINT, POINT, POINT, ZERO, NONE, GAP], // 9 Perpendicular
    [4, POINT, POINT, POINT, POINT, EITHER, ANGLE, PLAIN], // 10 AngleLine
    [2, POINT, POINT, UNUSED, UNUSED, ZERO, NONE, GAP], // 11 PointsCoincident
    [2, POINT, ARC, UNUSED, UNUSED, ZERO, NONE, GAP], // 12 PointArcCoincident
    [3, POINT, POINT, POINT, UNUSED, ZERO, NONE, GAP], // 13 Midpoint
    [4, POINT, POINT, POINT, POINT, ZERO, NONE, GAP], // 14 Symmetric
    [1, CIRCLE, UNUSED, UNUSED, UNUSED, ZERO, EXPRESSION, PLAIN], // 15 CircleRadius
    [3, POINT, POINT, CIRCLE, UNUSED, ZERO, NONE, PLAIN], // 16 Tangent
    [1, ARC, UNUSED, UNUSED, UNUSED, ZERO, NUMBER, PLAIN], // 17 ArcRadius
    [1, ROUND, UNUSED, UNUSED, UNUSED, EITHER, NUMBER, PLAIN], // 18 FixCenterPointComponent
    [4, POINT, POINT, POINT, POINT, ZERO, NONE, GAP], // 19 LinesEqualLength
    [1, ARC, UNUSED, UNUSED, UNUSED, ZERO, NONE, PLAIN], // 20 IsArc
    [3, POINT, POINT, POINT, UNUSED, ZERO, NUMBER, GAP], // 21 PointLineDistance
    [2, POINT, POINT, UNUSED, UNUSED, ZERO, NONE, PLAIN], // 22 Line
    [1, ARC, UNUSED, UNUSED, UNUSED, ZERO, NUMBER, PLAIN], // 23 ArcLength
    [1, PAIR_PART, UNUSED, UNUSED, UNUSED, ZERO, PAIR, DOTTED], // 24 point guess
    [1, NUMBER_PART, UNUSED, UNUSED, UNUSED, ZERO, NUMBER, DOTTED], // 25 scalar guess
];

// The table where it lies, so that no look copies it.
static TABLE: [[u8; COLUMNS]; ROWS] = KINDS;

// A cell of a table of kinds, and 0 past its end.
#[tactic(auto, unfolding(crate::specs::Kinds::cell))]
pub fn look(kinds: &[[u8; COLUMNS]; ROWS], kind: u8, column: usize) -> u8
    ensures { result ≡ cell kinds.now kind column }
{
    let row = usize::from(kind);
    if (row < ROWS) & (column < COLUMNS) {
        kinds[row][column]
    } else {
        0
    }
}

// A cell of the table itself, for who looks once.
pub fn cell_of(kind: u8, column: usize) -> u8
    ensures { result ≡ cell table kind column }
{
    look(&TABLE, kind, column)
}

// The words of the kinds' forms, indexed by a kind's number; none for a form that begins with a label.
static WORDS: [&[u8]; ROWS] = [
    b"", // 0 no kind
    b"point",
    b"circle",
    b"arc",
    b"", // 4 FixPointComponent
    b"vertical",
    b"horizontal",
    b"distance",
    b"parallel",
    b"perpendicular",
    b"lines_at_angle",
    b"coincident",
    b"point_arc_coincident",
    b"midpoint",
    b"symmetric",
    b"radius",
    b"tangent",
    b"arc_radius",
    b"", // 18 FixCenterPointComponent
    b"lines_equal_length",
    b"is_arc",
    b"point_line_distance",
    b"line",
    b"arc_length",
    b"", // 24 point guess
    b"", // 25 scalar guess
];

// The word that a kind's form begins with; none past the last kind.
pub fn word_of(kind: u8) -> &'static [u8]
    ensures { result.now ≡ word_of kind }
{
    let row = usize::from(kind);
    if row < ROWS { WORDS[row] } else { b"" }
}

// The byte of a word at a place, and a blank past its end.
fn byte_or_blank(word: &[u8], at: usize) -> u8
    requires { at < 20 }
    ensures { result ≡ get_or (padded word.now) at 0 }
{
    if at < word.len() { word[at] } else { b' ' }
}

// Whether a kind's word begins with these two bytes: a quick look, before the word is read.
pub fn may_begin(kind: u8, a: u8, b: u8) -> bool
    ensures { result ≡ begins (word_of kind) a b }
{
    let word = word_of(kind);
    (byte_or_blank(word, 0) == a) & (byte_or_blank(word, 1) == b)
}
