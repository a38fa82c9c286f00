//! Transforms over domains, their sizes and their cost: lemmas, and bit-reversed order; no code.
#![tactic(auto)]
