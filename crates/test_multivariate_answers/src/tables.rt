//! Tables in words: all their values between commas, or the number of variables, a stroke and entries, each an index, a
//! colon and a number.

use ark_base::{PolyError, Polynomial};
use ark_multi::{DenseMultilinearExtension, MultilinearExtension, SparseMultilinearExtension};
use std::alloc::Global;
use test_cases::answers::Answer;
use test_cases::forms::Form;
use test_cases::words::{elements, joined, table_of, text_of, text_of_numbers, text_of_terms};
use test_types::numbered::Numbered;

/// Extensions by all their values.
pub struct ByValues;

impl<F: Numbered> Form<F, DenseMultilinearExtension<F>> for ByValues {
    fn of(&self, alloc: Global, word: &str) -> Result<DenseMultilinearExtension<F>, PolyError> {
        if word.contains('/') {
            let p: SparseMultilinearExtension<F> = ByEntries.of(alloc, word)?;
            return p.to_dense_multilinear_extension(alloc);
        }
        let values = elements::<F>(alloc, word)?;
        let num_vars = values.len().trailing_zeros() as usize;
        if num_vars >= 64 || values.len() != 1 << num_vars {
            return DenseMultilinearExtension::zero(alloc);
        }
        Ok(DenseMultilinearExtension::from_evaluations_vec(num_vars, values))
    }

    fn point_of(&self, alloc: Global, word: &str) -> Result<Vec<F>, PolyError> {
        Ok(elements(alloc, word)?)
    }

    fn text(&self, alloc: Global, p: &DenseMultilinearExtension<F>) -> Answer {
        let mut values = Vec::new(alloc);
        for value in p.iter() {
            values.push(*value)?;
        }
        text_of(alloc, &values)
    }
}

/// Extensions by their entries.
pub struct ByEntries;

impl<F: Numbered> Form<F, SparseMultilinearExtension<F>> for ByEntries {
    fn of(&self, alloc: Global, word: &str) -> Result<SparseMultilinearExtension<F>, PolyError> {
        let (num_vars, entries) = table_of::<F>(alloc, word)?;
        if num_vars >= 64 {
            return SparseMultilinearExtension::zero(alloc);
        }
        let len = 1 << num_vars;
        if !entries.iter().all(|entry| entry.0 < len) {
            return SparseMultilinearExtension::zero(alloc);
        }
        SparseMultilinearExtension::from_evaluations(alloc, num_vars, &entries)
    }

    fn point_of(&self, alloc: Global, word: &str) -> Result<Vec<F>, PolyError> {
        Ok(elements(alloc, word)?)
    }

    fn text(&self, alloc: Global, p: &SparseMultilinearExtension<F>) -> Answer {
        let mut entries = Vec::new(alloc);
        for entry in p.iter() {
            entries.push(*entry)?;
        }
        let num_vars = text_of_numbers(alloc, &[p.num_vars() as u64]);
        joined(alloc, num_vars, "/", text_of_terms(alloc, &entries))
    }
}
