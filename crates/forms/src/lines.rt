// Instructions and guesses: the first form that reads.
ghost use Rattle.std.specs.Prelude.{◌≡◌};
ghost use Rattle.forms.specs.Forms.{instruction_on, guessed_on, guess_on, line_on, handed_out};
ghost use Rattle.forms.specs.Steps.{second_of, meant_line};

use crate::pieces::Parsed;
use crate::{Line, declarations, labels, pieces};
use record::Record;
use text::{ReadLabel, Stand};

// An instruction: spaces, then the first form that reads.
fn parse_instruction(text: &[u8], stand: Stand) -> Parsed
    ensures { meant_line result ≡ instruction_on text.now stand }
{
    let s = text::ws(text, stand);
    let Stand::At(at) = s else {
        return pieces::no_line(s);
    };
    declarations::declaration(text, at).or_else(|| labels::label_forms(text, at))
}

// What follows the label of a guess: a point pair, else a number.
#[tactic(auto, using(crate::proofs::Choice::chosen), unfolding(crate::specs::Forms::guessed_on))]
fn guessed(text: &[u8], l: ReadLabel, stand: Stand) -> Parsed
    ensures { meant_line result ≡ guessed_on text.now l stand }
{
    let p = pieces::parse_point(text, stand);
    let pair = Parsed {
        first: pieces::labelled(kinds::PAIR_GUESS, 0, l, p.x, p.y),
        second: None,
        then: p.then,
    };
    pair.or_else(|| {
        let n = number::parse_number(text, stand);
        Parsed {
            first: pieces::labelled(kinds::NUMBER_GUESS, 0, l, n.bits, 0),
            second: None,
            then: n.then,
        }
    })
}

// A guess: spaces, a label, spaces, `roughly`, spaces, and its numbers.
#[tactic(auto, unfolding(crate::specs::Forms::guess_on))]
fn parse_guess(text: &[u8], stand: Stand) -> Parsed
    ensures { meant_line result ≡ guess_on text.now stand }
{
    let s = text::ws(text, stand);
    let l = text::parse_label_opt_suffix(text, s);
    let s = text::ws(text, l.then);
    let s = text::word(text, s, b"roughly");
    let s = text::ws(text, s);
    guessed(text, l, s)
}

// An instruction or a guess.
pub(crate) fn line_at(text: &[u8], stand: Stand, guess: bool) -> Parsed
    ensures { meant_line result ≡ line_on guess text.now stand }
{
    if guess {
        parse_guess(text, stand)
    } else {
        parse_instruction(text, stand)
    }
}

// The second record of a line, which differs from the first in its third byte and number.
pub(crate) fn second_of(first: Record, x: u64) -> Record
    ensures { result ≡ second_of first x }
{
    Record {
        third: 2,
        x,
        ..first
    }
}

// A line as it is handed out.
pub(crate) fn hand_out(line: Parsed) -> Line
    ensures { result ≡ handed_out (meant_line line) }
{
    let first = line.first;
    let none = Line {
        count: 0,
        first: record::no_record(),
        second: record::no_record(),
        then: line.then,
    };
    let Stand::At(_) = line.then else {
        return none;
    };
    match line.second {
        None => Line {
            count: 1,
            first,
            ..none
        },
        Some(x) => Line {
            count: 2,
            first,
            second: second_of(first, x),
            ..none
        },
    }
}
