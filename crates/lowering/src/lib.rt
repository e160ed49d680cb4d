// Lowering: a drawing that passes the check becomes slots with ids and starting values, and a row for each rule.
#![tactic(auto)]

mod rules;
mod shapes;
mod sheet;
mod spans;

ghost use Rattle.std.specs.Prelude.{◌≡◌, ◌≤◌};
ghost use Rattle.record.specs.Record.{most_records};
ghost use Rattle.layout.specs.Run.{slots_for};
ghost use Rattle.record.specs.Formed.{entries};
ghost use Rattle.refusal.specs.Refusal.{refusal};
ghost use Rattle.lowering.specs.Lower.{Lowers, room_by, lack_number};
ghost use Rattle.lowering.specs.Steps.{sketch_in, Writable, FilledBy, lack_by, refused_by, lack_told};

use drawing::judge;
use layout::{IDS_END, Layout, VARS_PER_ARC, VARS_PER_CIRCLE, VARS_PER_POINT};
use names::{GUESSES, NAMES, resolve};
use refusal::Refusal;
use row::ROW;
use rules::fill_rows;
use shapes::fill_slots;
use sheet::Sheet;

// What a drawing is lowered to: the layout, the next id and how many rows there are.
#[derive(Clone, Copy)]
pub struct Lowered {
    pub layout: Layout,
    pub next: u32,
    pub rows: usize,
}

// How many slots so many shapes have. `layout` has it of a layout within its limits, and no public function asks for such.
fn slots_of(points: usize, circles: usize, arcs: usize) -> usize
    requires { (points ≤ most_records) × (circles ≤ most_records) × (arcs ≤ most_records) }
    ensures { result ≡ slots_for points circles arcs }
{
    points * VARS_PER_POINT + circles * VARS_PER_CIRCLE + arcs * VARS_PER_ARC
}

// What is lacking, by the numbers of docs/FORMAT.md: ids, slots lent for ids or values, or room lent for rows.
#[derive(Clone, Copy, Debug, PartialEq, Eq)]
enum Lack {
    FewIds = 36,
    ShortSlices = 37,
    ShortRows = 38,
}

impl From<Lack> for Refusal {
    ghost from_gives = { λ lack r. r ≡ refusal (lack_number (lack_by lack)) 0 };

    fn from(lack: Lack) -> Refusal {
        Refusal {
            number: lack as u8,
            place: 0,
        }
    }
}

// Asks whether there is enough for so many slots and rows, and refuses with what is lacking first.
fn enough(
    next: u32,
    ids: usize,
    values: usize,
    room: usize,
    slots: usize,
    rows: usize,
) -> Result<(), Lack>
    ensures { refused_by result ≡ lack_told (room_by next ids values room) slots rows }
{
    if ((IDS_END - next) as usize) < slots {
        return Err(Lack::FewIds);
    }
    if ids < slots || values < slots {
        return Err(Lack::ShortSlices);
    }
    if room / ROW < rows {
        return Err(Lack::ShortRows);
    }
    Ok(())
}

// Fills the slots and the rows of a drawing that passes, with room for them.
fn fill(
    sheet: &Sheet,
    names: &[u16; NAMES],
    guesses: &[u16; GUESSES],
    next: u32,
    ids: &mut [u32],
    values: &mut [f64],
    rows: &mut [u8],
) -> Layout
    requires { Writable (sketch_in sheet.now.records.now names.now) next rows.old }
    ensures { FilledBy sheet.now.records.now names.now guesses.now next ids.old values.old rows.old result ids.new values.new rows.new }
{
    fill_rows(sheet, names, next, rows);
    fill_slots(sheet, guesses, next, ids, values)
}

// Lowers a drawing from the next id: the check first, then 36, 37, 38, then slots and rows.
pub fn lower(
    text: &[u8],
    records: &[u8],
    next: u32,
    ids: &mut [u32],
    values: &mut [f64],
    rows: &mut [u8],
) -> Result<Lowered, Refusal>
    ensures { Lowers (entries text.now records.now) next ids.old values.old rows.old result ids.new values.new rows.new }
{
    let mut names = [0u16; NAMES];
    let mut guesses = [0u16; GUESSES];
    let resolved = resolve(text, records, &mut names, &mut guesses);
    let found = judge(text, records, resolved, &names, &guesses)?;
    let slots = slots_of(found.points, found.circles, found.arcs);
    enough(next, ids.len(), values.len(), rows.len(), slots, found.rows)?;
    let sheet = Sheet {
        records,
        points: found.points,
        circles: found.circles,
    };
    let layout = fill(&sheet, &names, &guesses, next, ids, values, rows);
    Ok(Lowered {
        layout,
        next: next + (slots as u32),
        rows: found.rows,
    })
}
