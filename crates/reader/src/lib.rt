// Reading a page: its lines, its records, and the place where reading stops.
#![tactic(auto)]

mod page;

ghost use Rattle.std.specs.Prelude.{true, false};
ghost use Rattle.reader.specs.Page.{Reads};

use refusal::Refusal;

// What a page was read to: how many instructions and guesses its records are, and where reading stopped.
#[derive(Clone, Copy)]
pub struct Reading {
    pub instructions: usize,
    pub guesses: usize,
    pub end: usize,
}

// Reads a page, which may leave text over, and writes its records.
pub fn parse_problem(text: &[u8], records: &mut [u8]) -> Result<Reading, Refusal>
    ensures { Reads false text.now records.old result records.new }
{
    page::read(text, records, false)
}

// The same, where the page has to be the whole text.
pub fn parse_whole(text: &[u8], records: &mut [u8]) -> Result<Reading, Refusal>
    ensures { Reads true text.now records.old result records.new }
{
    page::read(text, records, true)
}
