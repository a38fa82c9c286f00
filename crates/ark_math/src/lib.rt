//! The mathematics that the lowest crates cite, of fields, modules, domains, transforms and polynomials in one
//! variable: definitions (`specs/`) and lemmas (`proofs/`), no code.
#![tactic(auto)]
