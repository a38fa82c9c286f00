//! Polynomials at the elements of a domain: definitions and lemmas, no code.
#![tactic(auto)]
