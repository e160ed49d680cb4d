// Declarations: their words and their labels.
ghost use Rattle.std.specs.Prelude.{◌≡◌, ◌≤◌, length};
ghost use Rattle.text.specs.declared.Stand.TheVariants.{At};
ghost use Rattle.kinds.specs.Kinds.{word_of};
ghost use Rattle.forms.specs.Forms.{declare_on};
ghost use Rattle.forms.specs.Steps.{meant_line, declaration_on};

use crate::pieces::Parsed;
use crate::{keywords, pieces};
use text::Stand;

// The word of a declaration and its label; the space between them may be missing.
#[tactic(auto, unfolding(crate::specs::Forms::declare_on))]
fn declare(text: &[u8], at: usize, kind: u8) -> Parsed
    requires { 2 ≤ length (word_of kind) }
    ensures { meant_line result ≡ declare_on text.now (At at) kind }
{
    if !keywords::may_stand(text, at, kind) {
        return pieces::no_line(Stand::Nothing);
    }
    let word = text::word(text, Stand::At(at), kinds::word_of(kind));
    let s = text::ws(text, word);
    let l = text::parse_label(text, s);
    Parsed {
        first: pieces::labelled(kind, 0, l, 0, 0),
        second: None,
        then: l.then,
    }
}

// A declaration, by its word's first byte.
pub(crate) fn declaration(text: &[u8], at: usize) -> Parsed
    ensures { meant_line result ≡ declaration_on text.now (At at) }
{
    match text::byte_at(text, at) {
        b'p' => declare(text, at, kinds::NEW_POINT),
        b'c' => declare(text, at, kinds::NEW_CIRCLE),
        b'a' => declare(text, at, kinds::NEW_ARC),
        _ => pieces::no_line(Stand::Nothing),
    }
}
