//! Ready prime fields of one word: three small ones, and those that proof systems compute over. `ark_base` has
//! the types that carry them.
#![tactic(auto)]

mod proof_systems;
mod small;

pub use proof_systems::{
    BabyBear, BabyBearModulus, Goldilocks, GoldilocksModulus, KoalaBear, KoalaBearModulus,
};
pub use small::{F5, F433, F65537, Modulus5, Modulus433, Modulus65537};
