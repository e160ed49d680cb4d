// A page: its lines are read one by one into a buffer of the reader's own, so that a refusal finds the lent one untouched.
ghost use Rattle.std.specs.Prelude.{◌≡◌, ◌≤◌, length, nat_lt, slice_index, EachIndex};
ghost use Rattle.std.specs.List.{take_while};
ghost use Rattle.record.specs.Record.{most_records, longest_text};
ghost use Rattle.reader.specs.Page.{heading_on, opt_newline_on, high_at, Reads, refused_by, told_of, ended_of};
ghost use Rattle.reader.specs.Steps.{Paged, told_records, Ended};

use crate::Reading;
use refusal::Refusal;
use text::Stand;

// How many records a page has of each sort, and where reading stands in the end.
#[derive(Clone, Copy)]
pub(crate) struct Page {
    pub(crate) instructions: usize,
    pub(crate) guesses: usize,
    pub(crate) then: Stand,
}

// `#`, spaces, a word, a new line.
#[tactic(auto, unfolding(crate::specs::Page::heading_on))]
fn heading(text: &[u8], stand: Stand, word: &[u8]) -> Stand
    ensures { result ≡ heading_on text.now stand word.now }
{
    let s = text::byte(text, stand, b'#');
    let s = text::ws(text, s);
    let s = text::word(text, s, word);
    text::newline(text, s)
}

// One optional new line.
#[tactic(auto, unfolding(crate::specs::Page::opt_newline_on))]
fn opt_newline(text: &[u8], stand: Stand) -> Stand
    ensures { result ≡ opt_newline_on text.now stand }
{
    text::or_stand(text::newline(text, stand), stand)
}

// A page, its records stored in the reader's own buffer.
fn read_page(text: &[u8], own: &mut [u8]) -> Page
    requires { length text.now ≤ longest_text }
    ensures { Paged text.now own.old result.instructions result.guesses result.then own.new }
{
    let s = heading(text, Stand::At(0), b"constraints");
    let s = text::refuse(Stand::At(0), s, 3);
    let instructions = forms::read_section(text, s, false, 4, own, 0);
    let i = instructions.count; // fits a u32, which no `From` makes of it
    let s = text::newline(text, instructions.then);
    let s = text::newline(text, s);
    let gap = text::refuse(instructions.then, s, 5);
    let s = text::ws(text, gap);
    let s = heading(text, s, b"guesses");
    let s = text::refuse(gap, s, 6);
    let guesses = forms::read_section(text, s, true, 7, own, i as u32);
    let n = guesses.count;
    let s = opt_newline(text, guesses.then);
    Page {
        instructions: i,
        guesses: n - i,
        then: text::ws(text, s),
    }
}

// The largest byte, 0 where there is none.
fn largest(text: &[u8]) -> u8
    ensures { EachIndex text.now (λ k. slice_index text.now k ≤ result) }
{
    text.iter().copied().max().unwrap_or(0)
}

// The place of the first byte of 128 or more, or the text's end.
fn first_high(text: &[u8]) -> usize
    ensures { result ≡ length (take_while (λ b. nat_lt b 128) text.now) }
{
    text.iter().take_while(|b| **b < 128).count()
}

// The same, and quicker where there is none: a pass that looks for the largest byte does not stop, and takes many bytes at once.
fn high_at(text: &[u8]) -> usize
    ensures { result ≡ high_at text.now }
{
    if largest(text) < 128 {
        text.len()
    } else {
        first_high(text)
    }
}

// A refusal at a place, by its number: the promise of a reading, `reading_of`, has refusals by their numbers.
fn refused(number: u8, place: usize) -> Result<Reading, Refusal>
    ensures { result ≡ refused_by number place }
{
    Err(Refusal { number, place })
}

// What is told of a page that was read to a place.
fn tell_end(
    text: &[u8],
    page: Page,
    whole: bool,
    bytes: usize,
    end: usize,
) -> Result<Reading, Refusal>
    requires { (page.instructions ≤ 100000) × (page.guesses ≤ 100000) }
    ensures { result ≡ told_of whole (length text.now) page.instructions page.guesses bytes end }
{
    let count = page.instructions + page.guesses;
    if whole & (end < text.len()) {
        return refused(10, end);
    }
    if record::MOST < count {
        return refused(11, 0);
    }
    if bytes < record::SIZE * count {
        return refused(12, 0);
    }
    Ok(Reading {
        instructions: page.instructions,
        guesses: page.guesses,
        end,
    })
}

// What is told of a page, by where reading stands in the end.
fn tell(text: &[u8], page: Page, whole: bool, bytes: usize) -> Result<Reading, Refusal>
    requires { (page.instructions ≤ 100000) × (page.guesses ≤ 100000) }
    ensures { result ≡ ended_of whole (length text.now) page.instructions page.guesses bytes page.then }
{
    match page.then {
        Stand::At(end) => tell_end(text, page, whole, bytes, end),
        Stand::Nothing => refused(3, 0),
        Stand::Refused(why) => Err(why),
    }
}

// Reads a page into the reader's own buffer, and copies the records that are told.
fn read_into(text: &[u8], records: &mut [u8], whole: bool) -> Result<Reading, Refusal>
    requires { length text.now ≤ longest_text }
    ensures { Ended whole text.now records.old result records.new }
{
    let mut own = [0; record::ROOM];
    let page = read_page(text, &mut own);
    let told = tell(text, page, whole, records.len())?;
    let n = record::SIZE * (told.instructions + told.guesses);
    store::put(records, 0, &own[..n]);
    Ok(told)
}

// Reads a page: 1 and 2 are told of the text before anything is read of it.
pub(crate) fn read(text: &[u8], records: &mut [u8], whole: bool) -> Result<Reading, Refusal>
    ensures { Reads whole text.now records.old result records.new }
{
    if record::LONGEST < text.len() {
        return refused(1, 0);
    }
    let high = high_at(text);
    if high < text.len() {
        return refused(2, high);
    }
    read_into(text, records, whole)
}
