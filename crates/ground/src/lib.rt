// No code: what the definitions and proofs of every crate above share, in specs/ and proofs/.
#![tactic(auto)]
