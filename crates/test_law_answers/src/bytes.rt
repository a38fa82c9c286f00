//! Cases of bytes, of each type that is written and read: what reading says of them, and what writing gives back.
//!
//! The words are a type, modes, and bytes in hex. After one mode the answer has the spellings of the value that was
//! read, the full one and the short one; after two modes with `>` between them it has what `recompress` writes. Or it
//! has the refusal. How many bytes are left stands at the end. After two modes with `<` between them it has the bytes
//! there and back. In place of modes `changed` and `drawn` count how readings end where the bytes are changed and
//! cut, and of drawn bytes.

use crate::reading::answer_of;
use ark_base::FftField;
use ark_multi::multivariate::{self, SparseTerm};
use ark_multi::{DenseMultilinearExtension, SparseMultilinearExtension};
use ark_univariate::univariate::{DensePolynomial, SparsePolynomial};
use ark_univariate::{
    EvaluationDomain, Evaluations, GeneralEvaluationDomain, MixedRadixEvaluationDomain,
    Radix2EvaluationDomain,
};
use std::alloc::Global;
use test_cases::answers::Answer;
use test_cases::hex::bytes_of;
use test_cases::words::no_case;

pub fn answer<F: FftField>(alloc: Global, words: &[String]) -> Answer {
    let [kind, modes, word] = words else {
        return no_case(alloc);
    };
    let bytes = bytes_of(alloc, word.as_str())?;
    of_polynomials::<F>(alloc, kind.as_str(), modes.as_str(), &bytes)
}

fn of_polynomials<F: FftField>(alloc: Global, kind: &str, modes: &str, bytes: &[u8]) -> Answer {
    match kind {
        "element" => answer_of::<F>(alloc, bytes, modes),
        "list" => answer_of::<Vec<F>>(alloc, bytes, modes),
        "dense" => answer_of::<DensePolynomial<F>>(alloc, bytes, modes),
        "sparse" => answer_of::<SparsePolynomial<F>>(alloc, bytes, modes),
        "term" => answer_of::<SparseTerm>(alloc, bytes, modes),
        "multivariate" => {
            answer_of::<multivariate::SparsePolynomial<F, SparseTerm>>(alloc, bytes, modes)
        }
        "dense_extension" => answer_of::<DenseMultilinearExtension<F>>(alloc, bytes, modes),
        "sparse_extension" => answer_of::<SparseMultilinearExtension<F>>(alloc, bytes, modes),
        _ => of_domains::<F>(alloc, kind, modes, bytes),
    }
}

fn of_domains<F: FftField>(alloc: Global, kind: &str, modes: &str, bytes: &[u8]) -> Answer {
    match kind {
        "radix2" => of_domain::<F, Radix2EvaluationDomain<F>>(alloc, modes, bytes),
        "radix2_and_word" => of_pair::<F, Radix2EvaluationDomain<F>>(alloc, modes, bytes),
        "mixed" => of_domain::<F, MixedRadixEvaluationDomain<F>>(alloc, modes, bytes),
        "general" => of_domain::<F, GeneralEvaluationDomain<F>>(alloc, modes, bytes),
        "evaluations" => of_values::<F, Radix2EvaluationDomain<F>>(alloc, modes, bytes),
        "general_evaluations" => of_values::<F, GeneralEvaluationDomain<F>>(alloc, modes, bytes),
        _ => no_case(alloc),
    }
}

fn of_domain<F: FftField, D: EvaluationDomain<F>>(
    alloc: Global,
    modes: &str,
    bytes: &[u8],
) -> Answer {
    answer_of::<D>(alloc, bytes, modes)
}

// A domain, and a list of elements, as a word over it.
fn of_pair<F: FftField, D: EvaluationDomain<F>>(
    alloc: Global,
    modes: &str,
    bytes: &[u8],
) -> Answer {
    answer_of::<(D, Vec<F>)>(alloc, bytes, modes)
}

fn of_values<F: FftField, D: EvaluationDomain<F>>(
    alloc: Global,
    modes: &str,
    bytes: &[u8],
) -> Answer {
    answer_of::<Evaluations<F, D>>(alloc, bytes, modes)
}
