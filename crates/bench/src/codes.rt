//! Calls of erasure codes, and transforms of rows.

use crate::batches::{Benchmark, Counted, Number, Reporter, mixed};
use crate::draws::Draws;
use ark_base::{DomainCoeff, FftField, PolyError, Zero};
use ark_fields::{BabyBear, F65537};
use ark_poly::{EvaluationDomain, Radix2EvaluationDomain};
use ark_rows::Row;
use rs_code::Code;
use std::alloc::{AllocError, Global};
use std::io::Print;
use std::time::Clock;

/// The codeword of a message whose first item the last codeword gives.
#[derive(Drop)]
pub struct Encoding<F: FftField, T: DomainCoeff<F>> {
    pub code: Code<F>,
    pub message: Vec<T>,
    pub codeword: Vec<T>,
}

impl<F: FftField, T: DomainCoeff<F> + Number> Benchmark for Encoding<F, T> {
    fn call(&mut self, alloc: Global) -> Result<(), PolyError> {
        // The message is as long as the code's.
        self.codeword = self
            .code
            .encode(alloc, &self.message)
            .map_err(|_| PolyError::Memory)?;
        if let (Some(first), Some(value)) = (self.message.first_mut(), self.codeword.last()) {
            *first = *value;
        }
        Ok(())
    }

    fn checksum(&self) -> u64 {
        mixed(self.codeword.as_slice())
    }
}

/// The codeword of which drawn places are erased.
#[derive(Drop)]
pub struct Restoring<F: FftField, T: DomainCoeff<F>> {
    pub code: Code<F>,
    pub word: Vec<Option<T>>,
    pub codeword: Vec<T>,
}

impl<F: FftField, T: DomainCoeff<F> + Number> Benchmark for Restoring<F, T> {
    fn call(&mut self, alloc: Global) -> Result<(), PolyError> {
        // No more places are erased than the code restores.
        self.codeword = self
            .code
            .restore(alloc, &self.word)
            .map_err(|_| PolyError::Memory)?;
        Ok(())
    }

    fn checksum(&self) -> u64 {
        mixed(self.codeword.as_slice())
    }
}

/// A transform of rows in place, over and over.
#[derive(Drop)]
pub struct RowsInPlace<F: FftField, T: DomainCoeff<F>> {
    pub domain: Radix2EvaluationDomain<F>,
    pub rows: Vec<T>,
}

impl<F: FftField, T: DomainCoeff<F> + Number> Benchmark for RowsInPlace<F, T> {
    fn call(&mut self, alloc: Global) -> Result<(), PolyError> {
        self.domain.fft_in_place(alloc, &mut self.rows)
    }

    fn checksum(&self) -> u64 {
        mixed(self.rows.as_slice())
    }
}

/// Codes of half as many items as places, over elements and over pairs of them; and transforms of rows of eight.
pub fn report_codes<F: Counted, R: Print + Clock>(
    reporter: &Reporter<'_, R>,
) -> anyhow::Result<()> {
    let alloc = reporter.alloc;
    let mut draws = Draws::new();
    for n in [1 << 12, 1 << 16] {
        let message = draws.list::<F>(alloc, n / 2)?;
        report_code(reporter, "", n, message)?;
        let pairs = draws.pairs::<F>(alloc, n / 2)?;
        report_code(reporter, "_of_pairs", n, pairs)?;
    }
    report_rows(reporter, &mut draws)
}

// A message's codeword, and the codeword with a quarter and with half of its places erased, which are drawn.
fn report_code<F: Counted, T: DomainCoeff<F> + Number, R: Print + Clock>(
    reporter: &Reporter<'_, R>,
    of: &str,
    n: usize,
    message: Vec<T>,
) -> anyhow::Result<()> {
    let alloc = reporter.alloc;
    let Some(code) = Code::<F>::new(n / 2, n) else {
        return Ok(());
    };
    let codeword = code.encode(alloc, &message)?;
    for (part, count) in [("quarter", n / 4), ("half", n / 2)] {
        let name = format!(in alloc; "code_restore_{part}{of}")?;
        report_restoring(reporter, &name, n, count, &codeword)?;
    }
    let name = format!(in alloc; "code_encode{of}")?;
    let mut encoding = Encoding {
        code,
        message,
        codeword,
    };
    reporter.report(&name, n, &mut encoding)
}

// So many places are erased. Which ones is drawn, and the same for all codewords of one length.
fn report_restoring<F: Counted, T: DomainCoeff<F> + Number, R: Print + Clock>(
    reporter: &Reporter<'_, R>,
    name: &str,
    n: usize,
    count: usize,
    codeword: &[T],
) -> anyhow::Result<()> {
    let alloc = reporter.alloc;
    let Some(code) = Code::<F>::new(n / 2, n) else {
        return Ok(());
    };
    let erased = Draws::new().marks(alloc, n, count)?;
    let mut restoring = Restoring {
        code,
        word: with_erased(alloc, codeword, &erased)?,
        codeword: Vec::new(alloc),
    };
    reporter.report(name, n, &mut restoring)
}

// The values at all places but those that are erased.
fn with_erased<T: Copy>(
    alloc: Global,
    codeword: &[T],
    erased: &[bool],
) -> Result<Vec<Option<T>>, AllocError> {
    let mut word = Vec::with_capacity(alloc, codeword.len())?;
    for (value, is_erased) in codeword.iter().zip(erased) {
        word.push(if *is_erased { None } else { Some(*value) })?;
    }
    Ok(word)
}

// Of a row over any field it is not known that it fits into memory.
fn report_rows<R: Print + Clock>(
    reporter: &Reporter<'_, R>,
    draws: &mut Draws,
) -> anyhow::Result<()> {
    let mut rows = Vec::with_capacity(reporter.alloc, 1 << 12)?;
    let mut rows_of_baby_bear = Vec::with_capacity(reporter.alloc, 1 << 12)?;
    for _ in 0..1 << 12 {
        let mut row = Row::<F65537, 8>::zero();
        let mut row_of_baby_bear = Row::<BabyBear, 8>::zero();
        for lane in 0..8 {
            row.set(lane, draws.element());
            row_of_baby_bear.set(lane, draws.element());
        }
        rows.push(row)?;
        rows_of_baby_bear.push(row_of_baby_bear)?;
    }
    report_rows_in_place::<F65537, Row<F65537, 8>, R>(reporter, "rows_of_8_fft_in_place", rows)?;
    report_rows_in_place::<BabyBear, Row<BabyBear, 8>, R>(
        reporter,
        "baby_bear_rows_of_8_fft_in_place",
        rows_of_baby_bear,
    )
}

/// A transform of these items over the field's domain of as many elements.
pub fn report_rows_in_place<F: Counted, T: DomainCoeff<F> + Number, R: Print + Clock>(
    reporter: &Reporter<'_, R>,
    name: &str,
    rows: Vec<T>,
) -> anyhow::Result<()> {
    let size = rows.len();
    let Some(domain) = Radix2EvaluationDomain::<F>::new(size) else {
        return Ok(());
    };
    reporter.report(name, size, &mut RowsInPlace { domain, rows })
}
