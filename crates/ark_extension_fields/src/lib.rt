//! Ready extensions of the prime fields that proof systems compute over. `ark_extensions` has the types that carry
//! them.
#![tactic(auto)]

mod proof_systems;

pub use proof_systems::{
    BabyBear4, BabyBear4Modulus, Goldilocks2, Goldilocks2Modulus, KoalaBear4, KoalaBear4Modulus,
};
