// The lines of a section, one behind another: their records are put into a buffer as they are read.
ghost use Rattle.std.specs.Prelude.{◌≡◌, ◌≤◌, length};
ghost use Rattle.text.specs.declared.Stand.TheVariants.{At};
ghost use Rattle.record.specs.Record.{longest_text};
ghost use Rattle.forms.specs.Section.{lines_on, store, SectionRead};
ghost use Rattle.forms.specs.Steps.{records_of, Stored, stop_of};

use crate::pieces::Parsed;
use crate::{Count, lines};
use record::Record;
use refusal::Refusal;
use text::Stand;

// Puts a record at its place, where there is room.
fn put_record(own: &mut [u8], n: usize, r: Record)
    requires { n ≤ 5000000001 }
    ensures { own.new ≡ store own.old n r }
{
    let bytes = record::encode_record(r);
    store::put(own, n * record::SIZE, &bytes);
}

// Puts the records of a line at their places, and answers the next place.
#[tactic(auto, unfolding(crate::specs::Section::stored))]
fn put_line(own: &mut [u8], n: usize, line: Parsed) -> usize
    requires { n ≤ 5000000000 }
    ensures { Stored own.old n (records_of line) result own.new }
{
    let first = line.first;
    put_record(own, n, first);
    let Some(x) = line.second else {
        return n + 1;
    };
    put_record(own, n + 1, lines::second_of(first, x));
    n + 2
}

// Where reading stands without a further line: at the end of the last one, or, before the first one, refused where that is due.
fn stop(first: usize, number: u8, last: Option<usize>) -> Stand
    ensures { result ≡ stop_of first number last }
{
    match last {
        None => Stand::Refused(Refusal {
            number,
            place: first,
        }),
        Some(end) => Stand::At(end),
    }
}

// A line, which is due, and those that follow it, each behind one new line. Where none reads, reading stands at the last line's end.
pub(crate) fn section(
    text: &[u8],
    first: usize,
    guesses: bool,
    number: u8,
    own: &mut [u8],
    start: usize,
) -> Count
    requires { (length text.now ≤ longest_text) × (start ≤ 4294967295) }
    ensures { SectionRead own.old start (lines_on guesses text.now (At first) number) result own.new }
{
    let mut at = first;
    let mut last = None;
    let mut n = start;
    for _ in 0..text.len() + 1 {
        let line = lines::line_at(text, Stand::At(at), guesses);
        let then = line.then;
        let Stand::At(end) = then else {
            return Count {
                count: n,
                then: text::or_stand(then, stop(first, number, last)),
            };
        };
        n = put_line(own, n, line);
        let Stand::At(after) = text::newline(text, then) else {
            return Count { count: n, then };
        };
        at = after;
        last = Some(end);
    }
    Count {
        count: n,
        then: stop(first, number, last),
    }
}
