// The forms of a page's lines: one line at a place of any text, and the lines of a section, whose records are put into a buffer.
#![tactic(auto)]

mod declarations;
mod keywords;
mod labels;
mod lines;
mod pieces;
mod section;

ghost use Rattle.std.specs.Prelude.{◌≡◌};
ghost use Rattle.forms.specs.Forms.{line_on, handed_out};
ghost use Rattle.forms.specs.Section.{section_on, SectionRead};

use record::Record;
use refusal::Refusal;
use text::Stand;

// A line: how many records it has, the first and the second, each no record where there is none, and where reading stands behind it. The count
// stands beside the records, since the promise of `read_line`, `handed_out`, says it so.
#[derive(Clone, Copy)]
pub struct Line {
    pub count: usize,
    pub first: Record,
    pub second: Record,
    pub then: Stand,
}

// The place behind the last record of a section, and where reading stands behind its lines.
#[derive(Clone, Copy)]
pub struct Count {
    pub count: usize,
    pub then: Stand,
}

// One line where reading stands: an instruction or a guess.
pub fn read_line(text: &[u8], stand: Stand, guess: bool) -> Line
    ensures { result ≡ handed_out (line_on guess text.now stand) }
{
    lines::hand_out(lines::line_at(text, stand, guess))
}

// A line, which is due and refused by a number where there is none, and those that follow it. Their records go into a buffer, each where there is
// room for it, from a place on. A text that is too long is refused by 1.
#[tactic(auto, unfolding(crate::specs::Section::section_on))]
pub fn read_section(
    text: &[u8],
    stand: Stand,
    guesses: bool,
    number: u8,
    own: &mut [u8],
    start: u32,
) -> Count
    ensures { SectionRead own.old start (section_on guesses text.now stand number) result own.new }
{
    let start = start as usize; // no `From` leads there from a u32
    if record::LONGEST < text.len() {
        return Count {
            count: start,
            then: Stand::Refused(Refusal {
                number: 1,
                place: 0,
            }),
        };
    }
    let Stand::At(first) = stand else {
        return Count {
            count: start,
            then: stand,
        };
    };
    section::section(text, first, guesses, number, own, start)
}
