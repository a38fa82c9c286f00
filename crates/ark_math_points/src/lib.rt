//! Polynomials at points of a caller's own: definitions and lemmas, no code.
#![tactic(auto)]
