// The functions of `bridge` as the exports of a static library, under the same names, with the same clauses. rust/include/hunposeto.h
// declares them for C. Each calls the one in `bridge` and does no more.
#![tactic(auto)]

pub mod pages;
pub mod shapes;
