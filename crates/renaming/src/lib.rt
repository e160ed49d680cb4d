// No code: that the names of shapes do not matter (docs/FORMAT.md, "Lowering"), as a theorem over the promise of `lowering::lower`, and over pages.
#![tactic(auto)]
