//! Polynomials in several variables and multilinear extensions: definitions and lemmas, no code.
#![tactic(auto)]
