// The faults behind 30 as tests on numbers, and in one pass the first of them in their order, at the lowest record.
ghost use Rattle.std.specs.Prelude.{◌≡◌, ◌+◌, ◌*◌, ◌≤◌, ◌<◌, leb, length, get_or};
ghost use Rattle.refusal.specs.Worst.{rank_at, worse as worse_of, worst as worst_of};
ghost use Rattle.kinds.specs.Kinds.{label_places};
ghost use Rattle.record.specs.Record.{most_records};
ghost use Rattle.record.specs.Decode.{count_of as records_in};
ghost use Rattle.names.specs.Cut.{known_parts};
ghost use Rattle.drawing.specs.Needs.{need_of};
ghost use Rattle.drawing.specs.Faults.{behind30};
ghost use Rattle.drawing.specs.Ranks.{rank_or, found_as};
ghost use Rattle.drawing.specs.Numbers.{by_sort, name_by, wrong_name, declared_before, any_wrong_name, no_part_named, guessed_before, part_lacking, test_by, lent_numbers};

use kinds::{
    ARC, ASSIGNED, CIRCLE, FIRST_RULE, LABELS, LAST_RULE, NEEDS, NEW_ARC, NEW_CIRCLE, NEW_POINT,
    NUMBER_GUESS, NUMBER_PART, PAIR_GUESS, PAIR_PART, POINT, ROUND, cell_of,
};
use names::labels::kind_at;
use names::read::wide;
use names::{A, B, CENTER, GUESSES, NAMES, PARTS, RADIUS, SORTS, STEP, WHOLE};
use record::{PLACES, SIZE};

// The faults behind 30 by their numbers, in the order in which they are told.
#[derive(Clone, Copy, PartialEq, Eq, PartialOrd, Ord)]
pub(crate) enum Fault {
    DeclaredTwice = 31,
    WrongLabel = 32,
    NoSuchPart = 33,
    GuessedTwice = 34,
    WithoutGuess = 35,
}

// The sorts that a place can need: a shape by its kind, whole or a part of it.
const A_POINT: usize = NEW_POINT as usize * SORTS + WHOLE;

const A_CIRCLE: usize = NEW_CIRCLE as usize * SORTS + WHOLE;

const CIRCLE_CENTER: usize = NEW_CIRCLE as usize * SORTS + CENTER;

const CIRCLE_RADIUS: usize = NEW_CIRCLE as usize * SORTS + RADIUS;

const AN_ARC: usize = NEW_ARC as usize * SORTS + WHOLE;

const ARC_CENTER: usize = NEW_ARC as usize * SORTS + CENTER;

const ARC_A: usize = NEW_ARC as usize * SORTS + A;

const ARC_B: usize = NEW_ARC as usize * SORTS + B;

// The first fault of the order that holds anywhere, and the lowest record where it holds.
#[derive(Clone, Copy)]
pub(crate) struct Told {
    pub fault: Fault,
    pub place: usize,
}

// Whether a sort is what a code of the table needs.
#[tactic(auto, using(crate::proofs::Ranks::by_code))]
fn meets(code: u8, sort: usize) -> bool
    ensures { result ≡ by_sort (need_of code) sort }
{
    match code {
        POINT => sort == A_POINT,
        CIRCLE => sort == A_CIRCLE,
        ARC => sort == AN_ARC,
        ROUND => matches!(sort, A_CIRCLE | AN_ARC),
        ASSIGNED => matches!(sort, A_POINT | CIRCLE_CENTER | ARC_CENTER),
        PAIR_PART => matches!(sort, A_POINT | CIRCLE_CENTER | ARC_A | ARC_B | ARC_CENTER),
        NUMBER_PART => sort == CIRCLE_RADIUS,
        _ => false,
    }
}

// A record of a drawing: its kind, which of how many it is, and the tables of all names and guesses.
#[derive(Clone, Copy)]
struct Line<'a> {
    kind: u8,
    i: usize,
    n: usize,
    names: &'a [u16; NAMES],
    guesses: &'a [u16; GUESSES],
    ghost inside: { i < most_records },
}

impl Line<'_> {
    // The name of its label q.
    fn name(&self, q: usize) -> usize
        requires { q < label_places }
        ensures { result ≡ name_by self.now.names.now self.now.i q }
    {
        wide(self.names[self.i * PLACES + q])
    }

    // The guess at a place of the table, and 0 past its end.
    fn guess(&self, k: usize) -> usize
        ensures { result ≡ get_or self.now.guesses.now k 0 }
    {
        let guesses = self.guesses;
        wide(guesses.get(k).copied().unwrap_or(0))
    }

    // Whether a part of the shape that it declares has no guess.
    fn lacks(&self, part: usize) -> bool
        requires { part < known_parts }
        ensures { result ≡ leb self.now.n (get_or self.now.guesses.now (self.now.i * known_parts + part) 0) }
    {
        self.n <= self.guess(self.i * PARTS + part)
    }

    // Whether the name of its label q is not what its place needs.
    #[tactic(auto, using(crate::proofs::Ranks::wrong_name_is))]
    fn wrong_name(&self, q: usize) -> bool
        requires { q < label_places }
        ensures { result ≡ wrong_name self.now.kind self.now.names.now self.now.i q }
    {
        !meets(cell_of(self.kind, NEEDS + q), self.name(q) % STEP)
    }

    // 31.
    #[tactic(auto, unfolding(crate::specs::Numbers::declared_before))]
    fn declared_before(&self) -> bool
        ensures { result ≡ declared_before self.now.kind self.now.names.now self.now.i }
    {
        (NEW_POINT..=NEW_ARC).contains(&self.kind) && self.name(0) / STEP < self.i
    }

    // 32.
    #[tactic(auto, using(kinds::proofs::Cells::labels_is), unfolding(crate::specs::Numbers::any_wrong_name))]
    fn any_wrong_name(&self) -> bool
        ensures { result ≡ any_wrong_name self.now.kind self.now.names.now self.now.i }
    {
        if !(FIRST_RULE..=LAST_RULE).contains(&self.kind) {
            return false;
        }
        for q in 0..cell_of(self.kind, LABELS) as usize {
            if self.wrong_name(q) {
                return true;
            }
        }
        false
    }

    // 33.
    #[tactic(auto, unfolding(crate::specs::Numbers::no_part_named))]
    fn no_part_named(&self) -> bool
        ensures { result ≡ no_part_named self.now.kind self.now.names.now self.now.i }
    {
        (PAIR_GUESS..=NUMBER_GUESS).contains(&self.kind) && self.wrong_name(0)
    }

    // 34.
    #[tactic(auto, unfolding(crate::specs::Numbers::guessed_before))]
    fn guessed_before(&self) -> bool
        ensures { result ≡ guessed_before self.now.kind self.now.names.now self.now.guesses.now self.now.i }
    {
        if !(PAIR_GUESS..=NUMBER_GUESS).contains(&self.kind) {
            return false;
        }
        let name = self.name(0);
        self.guess(name / STEP * PARTS + name % SORTS) < self.i
    }

    // 35.
    #[tactic(auto, unfolding(crate::specs::Numbers::part_lacking))]
    fn part_lacking(&self) -> bool
        ensures { result ≡ part_lacking self.now.kind self.now.n self.now.guesses.now self.now.i }
    {
        match self.kind {
            NEW_POINT => self.lacks(WHOLE),
            NEW_CIRCLE => self.lacks(CENTER) || self.lacks(RADIUS),
            NEW_ARC => self.lacks(A) || self.lacks(B) || self.lacks(CENTER),
            _ => false,
        }
    }

    // The first fault of the order that it has.
    fn fault(&self) -> Option<Fault>
        ensures { rank_or result ≡ rank_at behind30 (test_by (record { count = self.now.n; kinds = λ j. self.now.kind; names = self.now.names.now; guesses = self.now.guesses.now })) self.now.i }
    {
        if self.declared_before() {
            return Some(Fault::DeclaredTwice);
        }
        if self.any_wrong_name() {
            return Some(Fault::WrongLabel);
        }
        if self.no_part_named() {
            return Some(Fault::NoSuchPart);
        }
        if self.guessed_before() {
            return Some(Fault::GuessedTwice);
        }
        if self.part_lacking() {
            return Some(Fault::WithoutGuess);
        }
        None
    }
}

// What was told so far, or the first fault of record i where it stands before that in the order.
fn worse(so_far: Option<Told>, first: Option<Fault>, i: usize) -> Option<Told>
    ensures { found_as result ≡ worse_of (rank_or first) i (found_as so_far) }
{
    let Some(fault) = first else {
        return so_far;
    };
    match so_far {
        Some(w) if w.fault <= fault => so_far,
        _ => Some(Told { fault, place: i }),
    }
}

// The first fault of all records.
pub(crate) fn worst(records: &[u8], names: &[u16; NAMES], guesses: &[u16; GUESSES]) -> Option<Told>
    requires { records_in records.now ≤ most_records }
    ensures { found_as result ≡ worst_of (length behind30) (rank_at behind30 (test_by (lent_numbers records.now names.now guesses.now))) (records_in records.now) }
{
    let n = records.len() / SIZE;
    let mut told = None;
    for i in 0..n {
        let line = Line {
            kind: kind_at(records, i),
            i,
            n,
            names,
            guesses,
        };
        told = worse(told, line.fault(), i);
    }
    told
}
