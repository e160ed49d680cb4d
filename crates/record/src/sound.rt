// Whether a record, judged by itself, is a good one.
ghost use Rattle.std.specs.Prelude.{◌≡◌, true, false, not, ◌&&◌, ◌||◌, ◌+◌, ◌≤◌, ◌<◌, leb, eqb, length};
ghost use Rattle.little.specs.Little.{byte, u16};
ghost use Rattle.kinds.specs.Kinds.{kind_at};
ghost use Rattle.record.specs.Record.{record_bytes, first_guess};
ghost use Rattle.record.specs.Decode.{is_guess, decode};
ghost use Rattle.record.specs.Entry.{part};
ghost use Rattle.record.specs.Sound.{spelled_test, all_placed, ended_test, good_kind};
ghost use Rattle.record.specs.Laid.{spelled_all, label_test, kind_told};
ghost use Rattle.record.specs.Steps.{head_by, rest_test, shape_test, Shaped};

use super::{LONGEST, MARK, SIZE, View, decode};
use kinds::{NEW_ARC, PAIR_GUESS};
use text::Stand;

// Whether a text is spelled as a label, or as two around a point.
fn spelled(label: &[u8], dotted: bool) -> bool
    ensures { result ≡ spelled_test dotted label.now }
{
    let at = Stand::At(0);
    if dotted {
        let read = text::parse_label_opt_suffix(label, at);
        return (0 < read.len) & (read.len == label.len());
    }
    let read = text::parse_label(label, at);
    (0 < read.len) & (read.len == label.len())
}

// Whether the part of a text that a view names is spelled as a label.
fn spelled_at(text: &[u8], v: View, dotted: bool) -> bool
    requires { v.start + v.len ≤ length text.now }
    ensures { result ≡ spelled_test dotted (part text.now v.start v.len) }
{
    let start = v.start;
    let end = start + v.len;
    spelled(&text[start..end], dotted)
}

// Whether each label of a record is spelled as one.
fn spelled_all(text: &[u8], b: &[u8], dotted: bool) -> bool
    requires { Shaped text.now b.now }
    ensures { result ≡ spelled_all text.now (decode b.now) dotted }
{
    for q in 0..b[3] as usize {
        if !spelled_at(text, decode::view_at(b, 4 + q * 4), dotted) {
            return false;
        }
    }
    true
}

// Whether the view in the four bytes from k on lies inside a text of n bytes.
fn inside(b: &[u8], k: usize, n: usize) -> bool
    requires { k + 3 < length b.now }
    ensures { result ≡ leb (u16 b.now k + u16 b.now (k + 2)) n }
{
    let v = decode::view_at(b, k);
    v.start + v.len <= n
}

// Whether it has zeros.
fn empty(b: &[u8], k: usize) -> bool
    requires { k + 3 < length b.now }
    ensures { result ≡ eqb (u16 b.now k) 0 && eqb (u16 b.now (k + 2)) 0 }
{
    let v = decode::view_at(b, k);
    (v.start == 0) & (v.len == 0)
}

// Whether each label place of an instruction lies inside a text of n bytes, or has zeros where it is not used.
fn placed(b: &[u8], n: usize) -> bool
    requires { (length b.now ≡ record_bytes) × (is_guess (byte b.now 1) ≡ false) × (0 < byte b.now 3) }
    ensures { result ≡ all_placed (decode b.now) n }
{
    let labels = b[3];
    if labels == 1 {
        return inside(b, 4, n) & (decode::u64_at(b, 8) == 0) & empty(b, 16);
    }
    if labels == 2 {
        return inside(b, 4, n) & inside(b, 8, n) & (decode::u64_at(b, 12) == 0);
    }
    let three = inside(b, 4, n) & inside(b, 8, n) & inside(b, 12, n);
    if labels == 3 {
        return three & empty(b, 16);
    }
    three & inside(b, 16, n)
}

// Whether a guess ends in zeros.
fn ended(b: &[u8]) -> bool
    requires { length b.now ≡ record_bytes }
    ensures { result ≡ ended_test b.now true }
{
    (b[24] == 0) & (b[25] == 0) & (b[26] == 0) & (b[27] == 0)
}

// Whether the mark, the count of labels and the third byte of a record are as a kind with so many labels and third bytes allows.
fn headed(b: &[u8], labels: u8, thirds: u8) -> bool
    requires { length b.now ≡ record_bytes }
    ensures { result ≡ head_by labels thirds b.now }
{
    ((b[0] == MARK) & ((0 < labels) & (b[3] == labels)))
        & ((b[2] <= thirds) & (!(0 < thirds) | (0 < b[2])))
}

// Whether what follows the head is, but for the spelling of the labels, over a text of n bytes and by the sort of number of its kind.
fn rest(b: &[u8], n: usize, sort: u8) -> bool
    requires { (length b.now ≡ record_bytes) × (0 < byte b.now 3) × (first_guess ≤ byte b.now 1 → byte b.now 3 ≤ 1) × (sort ≡ (kind_at (byte b.now 1)).number) }
    ensures { result ≡ rest_test n b.now }
{
    if PAIR_GUESS <= b[1] {
        return inside(b, 4, n)
            & (ended(b)
                & (((sort != kinds::NONE) | (decode::u64_at(b, 8) == 0))
                    & ((sort == kinds::PAIR) | (decode::u64_at(b, 16) == 0))));
    }
    placed(b, n) & ((sort != kinds::NONE) | (decode::u64_at(b, 20) == 0))
}

// Whether a record is as its kind allows, but for the spelling of its labels, over a text of n bytes.
fn shaped(b: &[u8], n: usize) -> bool
    requires { length b.now ≡ record_bytes }
    ensures { result ≡ shape_test n b.now }
{
    let labels = kinds::cell_of(b[1], kinds::LABELS);
    let thirds = kinds::cell_of(b[1], kinds::THIRDS);
    let sort = kinds::cell_of(b[1], kinds::SORT);
    if !headed(b, labels, thirds) {
        return false;
    }
    rest(b, n, sort)
}

// Whether the labels that are looked at are spelled as labels: in full all of them, in a text that is not too long, and else that of a
// declaration.
fn labelled(text: &[u8], b: &[u8], full: bool) -> bool
    requires { Shaped text.now b.now }
    ensures { result ≡ label_test full text.now (decode b.now) }
{
    if full {
        let dotted = kinds::cell_of(b[1], kinds::SPELLING) == kinds::DOTTED;
        return (text.len() <= LONGEST) & spelled_all(text, b, dotted);
    }
    let declares = b[1] <= NEW_ARC;
    if !declares {
        return true;
    }
    spelled_at(text, decode::view_at(b, 4), false)
}

// The kind of a record that is good, or that is but for the spelling of labels that no declaration has, and 0 of any other bytes. No
// Option, since `good_kind` promises the 0, and `kind_told`, which the promises of `formed` go by, has it.
pub(crate) fn kind_by(text: &[u8], b: &[u8], full: bool) -> u8
    ensures { result ≡ kind_told full text.now b.now }
{
    if b.len() != SIZE {
        return 0;
    }
    if !shaped(b, text.len()) {
        return 0;
    }
    if labelled(text, b, full) { b[1] } else { 0 }
}

// The kind of a good record, and 0 of any other bytes.
pub fn good_kind(text: &[u8], b: &[u8]) -> u8
    ensures { result ≡ good_kind text.now b.now }
{
    kind_by(text, b, true)
}
