//! The transforms over a domain, each as a whole with its exact cost, and what all kinds of domains keep.
#![tactic(auto)]

pub mod domain;
