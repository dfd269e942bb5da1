//! Vectors and matrices over a commutative ring: definitions in specs/ and lemmas in proofs/ for the crates above; no code.
#![tactic(auto)]
