// The forms that begin with a label.
ghost use Rattle.std.specs.Prelude.{◌≡◌};
ghost use Rattle.text.specs.declared.Stand.TheVariants.{At};
ghost use Rattle.forms.specs.Forms.{fixed_on, assign_on, label_forms_on};
ghost use Rattle.forms.specs.Steps.{meant_line, assigned_on, behind_on};

use crate::pieces::Parsed;
use crate::{keywords, pieces};
use text::{ReadLabel, Stand};

// What follows the label of a fixed component: a word, x or y, `=` and a number.
#[tactic(auto, unfolding(crate::specs::Forms::fixed_on))]
fn fix_component(text: &[u8], l: ReadLabel, kind: u8, between: &[u8]) -> Parsed
    ensures { meant_line result ≡ fixed_on text.now l kind between.now }
{
    let s = text::word(text, l.then, between);
    let c = pieces::parse_component(text, s);
    let s = pieces::around(text, c.then, b'=');
    let n = number::parse_number(text, s);
    Parsed {
        first: pieces::labelled(kind, c.third, l, n.bits, 0),
        second: None,
        then: n.then,
    }
}

// What follows the label of an assignment: a second part, `=` and a pair. It is two records, x then y.
#[tactic(auto, unfolding(crate::specs::Forms::assign_on))]
fn assign_point(text: &[u8], first: ReadLabel) -> Parsed
    ensures { meant_line result ≡ assign_on text.now first }
{
    let l = text::opt_suffix(text, first);
    let s = pieces::around(text, l.then, b'=');
    let p = pieces::parse_point(text, s);
    Parsed {
        first: pieces::labelled(kinds::FIX_COMPONENT, 1, l, p.x, 0),
        second: Some(p.y),
        then: p.then,
    }
}

// An assignment, and then the forms that begin with a keyword.
#[tactic(auto, using(crate::proofs::Choice::chosen))]
fn assign_forms(text: &[u8], at: usize, l: ReadLabel) -> Parsed
    ensures { meant_line result ≡ assigned_on text.now (At at) l }
{
    assign_point(text, l).or_else(|| keywords::keyword_forms(text, at))
}

// The forms that begin with a label, and then those that begin with a keyword.
fn dotted_forms(text: &[u8], at: usize, l: ReadLabel) -> Parsed
    ensures { meant_line result ≡ behind_on text.now (At at) l }
{
    fix_component(text, l, kinds::FIX_COMPONENT, b".")
        .or_else(|| fix_component(text, l, kinds::FIX_CENTER, b".center."))
        .or_else(|| assign_forms(text, at, l))
}

// The same by the byte behind the label: a point, or a bracket or a low line, which tells a keyword.
pub(crate) fn label_forms(text: &[u8], at: usize) -> Parsed
    ensures { meant_line result ≡ label_forms_on text.now (At at) }
{
    let l = text::parse_label(text, Stand::At(at));
    let Stand::At(next) = l.then else {
        return dotted_forms(text, at, l);
    };
    match text::byte_at(text, next) {
        b'.' => dotted_forms(text, at, l),
        b'(' | b'_' => keywords::keyword_forms(text, at),
        _ => assign_forms(text, at, l),
    }
}
