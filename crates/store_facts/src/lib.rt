//! What the definitions that must be believed say of small literals: facts that the prover computes
//! on them, in `proofs/`. No crate stands on this one, and it has no code.
#![tactic(auto)]
