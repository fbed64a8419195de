#![tactic(auto)]
// Nothing to run: this crate has laws of the definitions in `rules`, in proofs/.
