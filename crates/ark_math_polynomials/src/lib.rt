//! Polynomials in one variable: definitions and lemmas, no code.
#![tactic(auto)]
