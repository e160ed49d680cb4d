// The library as C functions over numbers, slices and arrays. Each answers a code, 0 where all is good and else the number of the
// refusal, and fills an array of six numbers with the parts of the answer or with the refusal's place. Nothing lent is kept. A crate is
// a library or a static library, and not both: here `no_mangle` exports nothing, and bridge_c exports each function under its name.
#![tactic(auto)]

mod laid;
pub mod pages;
pub mod shapes;
mod told;

// How many numbers are told beside the code.
pub const PARTS: usize = 6;
