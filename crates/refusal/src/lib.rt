// A refusal: its number and its place. The first fault of an order, at its lowest place, is in words and as a test in specs, for any order of
// faults.
#![tactic(auto)]

// A refusal, by docs/FORMAT.md's number and the place where it holds. The number is no enum: `text::refuse` and `forms::read_section` take any.
#[derive(Clone, Copy)]
pub struct Refusal {
    pub number: u8,
    pub place: usize,
}
