//! Calls of a transform's parts.

use crate::given::{domain_named, named, size_named};
use crate::swept::Call;
use ark_base::{FftField, PolyError, Work};
use ark_fft_parts::Parts;
use ark_poly::{EvaluationDomain, Radix2EvaluationDomain};
use std::alloc::Global;
use test_cases::answers::Answer;
use test_cases::words::{elements, no_case, no_fit, text_of};
use test_types::numbered::Numbered;

/// The parts of a domain, a block of columns or of rows, how many columns it has, and the number of its
/// first row.
#[derive(Drop)]
pub struct OfParts<F: FftField> {
    parts: Parts<F>,
    block: Vec<F>,
    count: usize,
    first: usize,
}

/// What the calls answer.
#[derive(Drop)]
pub enum Answered<F: FftField> {
    Block(Vec<F>),
    NoFit,
    NoCall,
}

impl<F: Numbered> Call for OfParts<F> {
    type Answered = Answered<F>;

    fn given(alloc: Global, words: &[String]) -> Result<Self, PolyError> {
        let domain: Radix2EvaluationDomain<F> = domain_named(words, "domain")?;
        let log_rows = u32::try_from(size_named(words, "log_rows")).unwrap_or(u32::MAX);
        Ok(OfParts {
            parts: Parts::new(domain.coset(), log_rows).ok_or(PolyError::NoDomain)?,
            block: elements(alloc, named(words, "block"))?,
            count: size_named(words, "count"),
            first: size_named(words, "first"),
        })
    }

    fn call(&mut self, alloc: Global, name: &str) -> Result<Answered<F>, PolyError> {
        match name {
            "columns" | "columns_back" => self.of_columns(alloc, name),
            "rows" | "rows_back" => self.of_rows(alloc, name),
            _ => Ok(Answered::NoCall),
        }
    }

    fn is_same(&self, other: &Self) -> bool {
        self.block == other.block
    }

    fn text(&self, alloc: Global, answered: &Answered<F>) -> Answer {
        match answered {
            Answered::Block(block) => text_of(alloc, block),
            Answered::NoFit => no_fit(alloc),
            Answered::NoCall => no_case(alloc),
        }
    }
}

impl<F: Numbered> OfParts<F> {
    // Makes a call of a block of columns.
    fn of_columns(&self, alloc: Global, name: &str) -> Result<Answered<F>, PolyError> {
        let rows = self.parts.column.size as usize;
        if rows.checked_mul(self.count) != Some(self.block.len()) {
            return Ok(Answered::NoFit);
        }
        let mut work = Work::new();
        let made = if name == "columns" {
            self.parts
                .columns(alloc, &self.block, self.count, &mut work)?
        } else {
            self.parts
                .columns_back(alloc, &self.block, self.count, &mut work)?
        };
        Ok(Answered::Block(made))
    }

    // Makes a call of a block of rows.
    fn of_rows(&self, alloc: Global, name: &str) -> Result<Answered<F>, PolyError> {
        let (rows, columns) = (
            self.parts.column.size as usize,
            self.parts.row.size as usize,
        );
        if self.block.len() % columns != 0 {
            return Ok(Answered::NoFit);
        }
        let count = self.block.len() / columns;
        if count > rows || self.first > rows - count {
            return Ok(Answered::NoFit);
        }
        let mut work = Work::new();
        let made = if name == "rows" {
            self.parts.rows(alloc, &self.block, self.first, &mut work)?
        } else {
            self.parts
                .rows_back(alloc, &self.block, self.first, &mut work)?
        };
        Ok(Answered::Block(made))
    }
}
