// The added check of a drawing: 30, then the other faults in their order, by the drawing's names.
#![tactic(auto)]

mod faults;

ghost use Rattle.std.specs.Prelude.{◌≡◌};
ghost use Rattle.refusal.specs.Refusal.{refusal};
ghost use Rattle.record.specs.Formed.{entries, formed_of};
ghost use Rattle.drawing.specs.Check.{checked_of};
ghost use Rattle.drawing.specs.Judged.{thirty_or, count_in, judged_of};

use faults::worst;
use kinds::{FIRST_RULE, LAST_RULE, NEW_ARC, NEW_CIRCLE, NEW_POINT};
use names::labels::kind_at;
use names::{GUESSES, NAMES, resolve};
use record::formed::{MALFORMED, well_formed};
use record::{MOST, SIZE};
use refusal::Refusal;

// How many points, circles, arcs and rows a drawing that passes has.
#[derive(Clone, Copy)]
pub struct Checked {
    pub points: usize,
    pub circles: usize,
    pub arcs: usize,
    pub rows: usize,
}

// How many records are of a kind from low to high.
#[tactic(auto, using(crate::proofs::Laws::count_more), unfolding(crate::specs::Check::count_below))]
fn count(records: &[u8], low: u8, high: u8) -> usize
    ensures { result ≡ count_in records.now low high }
{
    let mut c = 0;
    for i in 0..records.len() / SIZE {
        if (low..=high).contains(&kind_at(records, i)) {
            c += 1;
        }
    }
    c
}

// 30 of a list that is not well formed, and else another refusal.
fn behind_30(text: &[u8], records: &[u8], number: u8, place: usize) -> Result<Checked, Refusal>
    ensures { result ≡ thirty_or (formed_of (entries text.now records.now)) (refusal number place) }
{
    well_formed(text, records)?;
    Err(Refusal { number, place })
}

// The check by whatever names and guesses are lent: 30 where they were not resolved, and else the first fault that they show.
#[tactic(auto, unfolding(crate::specs::Judged::judged_of))]
pub fn judge(
    text: &[u8],
    records: &[u8],
    resolved: bool,
    names: &[u16; NAMES],
    guesses: &[u16; GUESSES],
) -> Result<Checked, Refusal>
    ensures { result ≡ judged_of text.now records.now resolved names.now guesses.now }
{
    if !resolved | (MOST < records.len() / SIZE) {
        return behind_30(text, records, MALFORMED, 0);
    }
    if let Some(w) = worst(records, names, guesses) {
        return behind_30(text, records, w.fault as u8, w.place);
    }
    Ok(Checked {
        points: count(records, NEW_POINT, NEW_POINT),
        circles: count(records, NEW_CIRCLE, NEW_CIRCLE),
        arcs: count(records, NEW_ARC, NEW_ARC),
        rows: count(records, FIRST_RULE, LAST_RULE),
    })
}

// The check of a drawing: 30 first, then the other faults in their order, and within one the lowest record.
#[tactic(auto, using(crate::proofs::Judging::judged))]
pub fn check(text: &[u8], records: &[u8]) -> Result<Checked, Refusal>
    ensures { result ≡ checked_of (entries text.now records.now) }
{
    let mut names = [0u16; NAMES];
    let mut guesses = [0u16; GUESSES];
    let resolved = resolve(text, records, &mut names, &mut guesses);
    judge(text, records, resolved, &names, &guesses)
}
