// Whether a list of records is well formed.
ghost use Rattle.std.specs.Prelude.{◌≡◌};
ghost use Rattle.record.specs.Formed.{malformed_at, entries, formed_of, misplaced};
ghost use Rattle.record.specs.Laid.{formed_by, laid_out};

use super::{LONGEST, MOST, SIZE, sound};
use kinds::PAIR_GUESS;
use refusal::Refusal;

// The number of the refusal.
pub const MALFORMED: u8 = 30;

// 30 at a place.
pub fn malformed_at(place: usize) -> Refusal
    ensures { result ≡ malformed_at place }
{
    Refusal {
        number: MALFORMED,
        place,
    }
}

// Whether a record is bad or not in its place, by its kind, which is 0 for a bad one.
fn at_fault(kind: u8, i: usize, guessed: bool) -> bool
    ensures { result ≡ misplaced kind i guessed }
{
    if PAIR_GUESS <= kind {
        return i == 0;
    }
    (kind == 0) | guessed
}

// The lowest place at which a list of records is at fault by their kinds, if there is one: in full, or but for the spelling of labels
// that no declaration has.
fn judged(text: &[u8], records: &[u8], full: bool) -> Result<(), Refusal>
    ensures { result ≡ formed_by full text.now records.now }
{
    let n = records.len() / SIZE;
    if !((text.len() <= LONGEST) & (n <= MOST)) {
        return Err(malformed_at(0));
    }
    let mut guessed = false;
    for i in 0..n {
        let at = i * SIZE;
        let end = at + SIZE;
        let kind = sound::kind_by(text, &records[at..end], full);
        if at_fault(kind, i, guessed) {
            return Err(malformed_at(i));
        }
        guessed |= PAIR_GUESS <= kind;
    }
    if (records.len() % SIZE == 0) & guessed {
        return Ok(());
    }
    Err(malformed_at(n))
}

// The lowest place at which a list of records is not well formed, if there is one.
pub fn well_formed(text: &[u8], records: &[u8]) -> Result<(), Refusal>
    ensures { result ≡ formed_of (entries text.now records.now) }
{
    judged(text, records, true)
}

// Whether a list of records is well formed but, perhaps, for the spelling of labels that no declaration has.
pub fn laid_out(text: &[u8], records: &[u8]) -> bool
    ensures { result ≡ laid_out text.now records.now }
{
    judged(text, records, false).is_ok()
}
