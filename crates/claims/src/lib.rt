// No code: what the demands and the marked cases of docs/FORMAT.md say, as theorems over the crates' own definitions.
#![tactic(auto)]
