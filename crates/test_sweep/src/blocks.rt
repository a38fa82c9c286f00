//! Calls of tables of roots, of which each may change the list of values that it is given.

use crate::given::{named, size_named};
use crate::swept::Call;
use ark_base::{FftField, PolyError};
use ark_bit_reversed::{BlockRoots, product_of_few};
use std::alloc::{AllocError, Global};
use test_cases::answers::Answer;
use test_cases::words::{elements, no_case, no_fit, text_of, text_of_numbers, told};
use test_types::numbered::Numbered;

/// A table, one of at most as many roots, coefficients, and values at the elements of the smaller table.
#[derive(Drop)]
pub struct OfBlocks<F: FftField> {
    table: BlockRoots<F>,
    smaller: BlockRoots<F>,
    coeffs: Vec<F>,
    values: Vec<F>,
    number: usize,
}

/// What the calls answer.
#[derive(Drop)]
pub enum Answered<F: FftField> {
    List(Vec<F>),
    ValuesInPlace,
    Table(Option<BlockRoots<F>>),
    NoFit,
    NoCall,
}

// The table for the number of this name.
fn table_named<F: FftField>(
    alloc: Global,
    words: &[String],
    name: &str,
) -> Result<BlockRoots<F>, PolyError> {
    BlockRoots::new(alloc, size_named(words, name))?.ok_or(PolyError::NoDomain)
}

impl<F: Numbered> Call for OfBlocks<F> {
    type Answered = Answered<F>;

    fn given(alloc: Global, words: &[String]) -> Result<Self, PolyError> {
        let table = table_named(alloc, words, "table")?;
        let smaller = table_named(alloc, words, "smaller")?;
        let values = elements(alloc, named(words, "values"))?;
        Ok(OfBlocks {
            table,
            smaller,
            coeffs: elements(alloc, named(words, "coeffs"))?,
            // Without room for more.
            values: Vec::from_slice(alloc, &values)?,
            number: size_named(words, "number"),
        })
    }

    fn call(&mut self, alloc: Global, name: &str) -> Result<Answered<F>, PolyError> {
        match name {
            "new" => Ok(Answered::Table(BlockRoots::new(alloc, self.number)?)),
            "product_of_few" => list_of(product_of_few(alloc, &self.coeffs)),
            "values" => self.all_values(alloc),
            "twice_upper_half" => self.upper_half(alloc),
            _ => self.from_values(alloc, name),
        }
    }

    fn is_same(&self, other: &Self) -> bool {
        are_same(&self.table, &other.table)
            && are_same(&self.smaller, &other.smaller)
            && self.coeffs == other.coeffs
            && self.values == other.values
    }

    fn text(&self, alloc: Global, answered: &Answered<F>) -> Answer {
        match answered {
            Answered::List(list) => text_of(alloc, list),
            Answered::ValuesInPlace => text_of(alloc, &self.values),
            Answered::Table(Some(table)) => text_of_numbers(alloc, &[table.size() as u64]),
            Answered::Table(None) => told(alloc, "none"),
            Answered::NoFit => no_fit(alloc),
            Answered::NoCall => no_case(alloc),
        }
    }
}

impl<F: Numbered> OfBlocks<F> {
    // Makes a call with values at the elements of the smaller table, of which the other one has twice as many at
    // least.
    fn from_values(&mut self, alloc: Global, name: &str) -> Result<Answered<F>, PolyError> {
        let len = self.smaller.size();
        if self.values.len() != len || len > self.table.size() / 2 || self.coeffs.len() > len {
            return Ok(Answered::NoFit);
        }
        match name {
            "double" => changed(self.table.double(&mut self.values, &self.coeffs)),
            "extend" => {
                let count = self.table.size();
                changed(self.table.extend(&mut self.values, &self.coeffs, count))
            }
            _ => Ok(Answered::NoCall),
        }
    }

    // The values at all elements of the table.
    fn all_values(&self, alloc: Global) -> Result<Answered<F>, PolyError> {
        let size = self.table.size();
        if self.coeffs.len() > size {
            return Ok(Answered::NoFit);
        }
        list_of(self.table.values(alloc, &self.coeffs, size))
    }

    // Makes the call with values and coefficients as two lists of values, each twice as long as the smaller table.
    fn upper_half(&self, alloc: Global) -> Result<Answered<F>, PolyError> {
        let (half, len) = (self.smaller.size(), self.values.len());
        let is_twice = len % 2 == 0 && len / 2 == half;
        if !is_twice || self.coeffs.len() != len || half > self.table.size() / 2 {
            return Ok(Answered::NoFit);
        }
        list_of(
            self.table
                .twice_upper_half(alloc, &self.values, &self.coeffs, half),
        )
    }
}

// Whether both have the same elements.
fn are_same<F: FftField>(table: &BlockRoots<F>, other: &BlockRoots<F>) -> bool {
    let size = table.size();
    if other.size() != size {
        return false;
    }
    for i in 0..size {
        if table.element(i) != other.element(i) {
            return false;
        }
    }
    true
}

fn list_of<F: FftField>(made: Result<Vec<F>, AllocError>) -> Result<Answered<F>, PolyError> {
    Ok(Answered::List(made?))
}

fn changed<F: FftField>(done: Result<(), AllocError>) -> Result<Answered<F>, PolyError> {
    done?;
    Ok(Answered::ValuesInPlace)
}
