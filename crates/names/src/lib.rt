// Names: for each label of each record one number, the declaring record with its kind and the part behind the first point, and for each
// part of each declaration the lowest record that guesses it. Behind 30, check and lowering go by these
// numbers, and look at no text.
#![tactic(auto)]

mod chains;
pub mod labels;
mod laid;
mod pieces;
pub mod read;

ghost use Rattle.std.specs.Prelude.{◌≡◌, ◌+◌, ◌*◌, ◌≤◌, ◌<◌, length};
ghost use Rattle.kinds.specs.Kinds.{label_places};
ghost use Rattle.record.specs.Record.{most_records};
ghost use Rattle.record.specs.Decode.{count_of as records_in};
ghost use Rattle.names.specs.Labels.{drawn};
ghost use Rattle.names.specs.Names.{name_for, name_places, names_of, guess_places, Resolves};
ghost use Rattle.names.specs.Chains.{Chained};
ghost use Rattle.names.specs.Steps.{FilledWith, NamedUpTo, Inside, NotedFrom};

use chains::{Chains, HEADS};
use kinds::{LABELS, PAIR_GUESS, cell_of};
use labels::kind_of;
use laid::Laid;
use pieces::{front, part_of};
use read::wide;
use record::{MOST, PLACES, SIZE};

// The parts that can stand behind a shape's label, nothing among them.
pub const WHOLE: usize = 0;

pub const CENTER: usize = 1;

pub const RADIUS: usize = 2;

pub const A: usize = 3;

pub const B: usize = 4;

// How many they are, and the number of any other part.
pub const PARTS: usize = 5;

// A name is (the declaring record) * STEP + (its kind) * SORTS + (the part); 0 is no name, as every kind is 1 at least.
// `name_for` and the tables, which are fixed memory, have it so.
pub const STEP: usize = 32;

pub const SORTS: usize = 8;

// The sizes of the tables of names and of guesses.
pub const NAMES: usize = 7_200;

pub const GUESSES: usize = 9_000;

// The name of a label.
fn name_of(page: &Laid, chains: &Chains, label: &[u8]) -> u16
    requires { Chained (drawn page.now.text.now page.now.records.now) chains.now.heads chains.now.nexts }
    ensures { result ≡ name_for (drawn page.now.text.now page.now.records.now) label.now }
{
    let f = front(label);
    let len = f.len;
    let hash = f.hash;
    let d = chains.walk(page, &label[..len], wide(chains.heads[hash]));
    if page.count() <= d {
        return 0;
    }
    (d * STEP + (page.kind(d) as usize) * SORTS + part_of(&label[len..])) as u16
}

// Puts the names of the labels of record i into the table.
fn name_record(page: &Laid, chains: &Chains, i: usize, names: &mut [u16; NAMES])
    requires { Chained (drawn page.now.text.now page.now.records.now) chains.now.heads chains.now.nexts × (i < records_in page.now.records.now) × NamedUpTo (drawn page.now.text.now page.now.records.now) (i * label_places) names.old }
    ensures { NamedUpTo (drawn page.now.text.now page.now.records.now) ((i + 1) * label_places) names.new }
{
    let labels = cell_of(page.kind(i), LABELS) as usize;
    for q in 0..labels {
        names[i * PLACES + q] = name_of(page, chains, page.label(i, q));
    }
}

// Puts the names of all labels into the table.
fn name_all(page: &Laid, chains: &Chains, names: &mut [u16; NAMES])
    requires { Chained (drawn page.now.text.now page.now.records.now) chains.now.heads chains.now.nexts × FilledWith name_places 0 names.old }
    ensures { names.new ≡ names_of (drawn page.now.text.now page.now.records.now) }
{
    for i in 0..page.count() {
        name_record(page, chains, i, names);
    }
}

// From the last record to the first: each guess of a part is noted.
fn note(records: &[u8], names: &[u16; NAMES], guesses: &mut [u16; GUESSES])
    requires { (records_in records.now ≤ most_records) × Inside names.now × FilledWith guess_places (records_in records.now) guesses.old }
    ensures { NotedFrom records.now names.now 0 guesses.new }
{
    for i in (0..records.len() / SIZE).rev() {
        let name = wide(names[i * PLACES]);
        let part = name % SORTS;
        if (PAIR_GUESS <= kind_of(records, i)) & ((0 < name) & (part < PARTS)) {
            guesses[name / STEP * PARTS + part] = i as u16;
        }
    }
}

// Resolves the names of records that are laid out, and tells whether they are; where they are not, both tables stay as they were.
pub fn resolve(
    text: &[u8],
    records: &[u8],
    names: &mut [u16; NAMES],
    guesses: &mut [u16; GUESSES],
) -> bool
    ensures { Resolves text.now records.now names.old guesses.old result names.new guesses.new }
{
    let Some(page) = Laid::of(text, records) else {
        return false;
    };
    // Zeros are written where they lie, where another number would be copied there.
    let mut chains = Chains {
        heads: [0; HEADS],
        nexts: [0; MOST],
    };
    chains.link(&page);
    names.fill(0);
    name_all(&page, &chains, names);
    guesses.fill(page.count() as u16);
    note(records, names, guesses);
    true
}
