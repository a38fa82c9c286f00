//! Calls of domains that change a list, that take no memory, or that no case makes.

use crate::given::{domain_named, element_named, named, size_named};
use crate::swept::Call;
use ark_base::{Compress, FftField, Lanes, PolyError, Work};
use ark_poly::laws::domain_read_back;
use ark_poly::{DenseUVPolynomial, EvaluationDomain};
use rand_pcg::Pcg64;
use std::alloc::{AllocError, Global};
use std::mem::ManuallyDrop;
use test_cases::answers::Answer;
use test_cases::words::{
    elements, no_case, no_fit, one, text_of, text_of_flags, text_of_numbers, told,
};
use test_types::nothing::Nothing;
use test_types::numbered::Numbered;

// As many items as an array can have, and a list.
const MOST: usize = usize::MAX;

const MOST_LISTED: usize = usize::MAX / 2;

/// A domain, another one, two lists, one of pairs, an element and an index.
#[derive(Drop)]
pub struct OverDomain<F: FftField, D: EvaluationDomain<F>> {
    domain: D,
    part: D,
    list: Vec<F>,
    other: Vec<F>,
    pairs: Vec<Lanes<F>>,
    point: F,
    index: usize,
}

/// What the calls answer.
#[derive(Drop)]
pub enum Answered<F: FftField, D> {
    Elements(Vec<F>),
    Pairs(Vec<Lanes<F>>),
    List,
    PairList,
    Domain(Option<D>),
    Element(Option<F>),
    Number(usize),
    Flag(bool),
    NoFit,
    NoCall,
}

impl<F: Numbered, D: EvaluationDomain<F>> Call for OverDomain<F, D> {
    type Answered = Answered<F, D>;

    fn given(alloc: Global, words: &[String]) -> Result<Self, PolyError> {
        let domain = domain_named(words, "domain")?;
        let part = domain_named(words, "part")?;
        let (list, other, pairs) = lists_named(alloc, words)?;
        Ok(OverDomain {
            domain,
            part,
            list,
            other,
            pairs,
            point: element_named(words, "point"),
            index: size_named(words, "index"),
        })
    }

    fn call(&mut self, alloc: Global, name: &str) -> Result<Answered<F, D>, PolyError> {
        match name {
            "ifft_of_pairs" => pairs_answer(self.domain.ifft(alloc, &self.pairs)),
            "mul_polynomials_in_evaluation_domain" => self.products(alloc),
            "filter_polynomial" => filter_of(alloc, &self.domain, &self.part),
            "domain_read_back" => read_back(alloc, &self.domain),
            "fft_of_nothings" => self.of_nothings(alloc),
            "fft_of_listed_nothings" => self.of_listed_nothings(alloc),
            _ => self.transform(alloc, name),
        }
    }

    fn is_same(&self, other: &Self) -> bool {
        self.domain == other.domain
            && self.part == other.part
            && self.list == other.list
            && self.other == other.other
            && self.pairs == other.pairs
    }

    fn text(&self, alloc: Global, answered: &Answered<F, D>) -> Answer {
        match answered {
            Answered::Elements(elements) => text_of(alloc, elements),
            Answered::Pairs(pairs) => text_of_pairs(alloc, pairs),
            Answered::List => text_of(alloc, &self.list),
            Answered::PairList => text_of_pairs(alloc, &self.pairs),
            Answered::Domain(domain) => text_of_domain(alloc, *domain),
            Answered::Element(element) => text_of_option(alloc, *element),
            Answered::Number(number) => text_of_numbers(alloc, &[*number as u64]),
            Answered::Flag(flag) => text_of_flags(alloc, &[*flag]),
            Answered::NoFit => no_fit(alloc),
            Answered::NoCall => no_case(alloc),
        }
    }
}

impl<F: Numbered, D: EvaluationDomain<F>> OverDomain<F, D> {
    // The products by places.
    fn products(&self, alloc: Global) -> Result<Answered<F, D>, PolyError> {
        if self.list.len() != self.other.len() {
            return Ok(Answered::NoFit);
        }
        elements_of(
            self.domain
                .mul_polynomials_in_evaluation_domain(alloc, &self.list, &self.other),
        )
    }

    // How many values as many items as there can be have, which take no room.
    fn of_nothings(&self, alloc: Global) -> Result<Answered<F, D>, PolyError> {
        Ok(Answered::Number(of_items::<F, D, MOST>(alloc, &self.domain)?))
    }

    // How many values a list of as many has.
    fn of_listed_nothings(&self, alloc: Global) -> Result<Answered<F, D>, PolyError> {
        let count = of_listed_items::<F, D, MOST_LISTED>(alloc, &self.domain)?;
        Ok(Answered::Number(count))
    }

    // Makes a call that changes a list.
    fn transform(&mut self, alloc: Global, name: &str) -> Result<Answered<F, D>, PolyError> {
        match name {
            "fft_in_place" => list_changed(self.domain.fft_in_place(alloc, &mut self.list)),
            "ifft_in_place" => list_changed(self.domain.ifft_in_place(alloc, &mut self.list)),
            "fft_counted" => list_changed(
                self.domain
                    .fft_counted(alloc, &mut self.list, &mut Work::new()),
            ),
            "ifft_counted" => list_changed(
                self.domain
                    .ifft_counted(alloc, &mut self.list, &mut Work::new()),
            ),
            "fft_in_place_of_pairs" => {
                pairs_changed(self.domain.fft_in_place(alloc, &mut self.pairs))
            }
            _ => Ok(self.without_memory(name)),
        }
    }

    // Makes a call that takes no memory.
    fn without_memory(&mut self, name: &str) -> Answered<F, D> {
        match name {
            "new" => Answered::Domain(D::new(self.index)),
            "new_coset" => Answered::Domain(D::new_coset(self.index, self.point)),
            "get_coset" => Answered::Domain(self.domain.get_coset(self.point)),
            "element" => Answered::Element(Some(self.domain.element(self.index))),
            "elements" => Answered::Number(self.number_of_elements()),
            "contains_subdomain" => Answered::Flag(self.domain.contains_subdomain(&self.part)),
            "evaluate_vanishing_polynomial" => {
                Answered::Element(Some(self.domain.evaluate_vanishing_polynomial(self.point)))
            }
            "evaluate_filter_polynomial" => {
                Answered::Element(
                    self.domain
                        .evaluate_filter_polynomial(&self.part, self.point),
                )
            }
            _ => self.without_memory_too(name),
        }
    }

    // Makes a further one.
    fn without_memory_too(&mut self, name: &str) -> Answered<F, D> {
        match name {
            "compute_size_of_domain" => {
                Answered::Number(D::compute_size_of_domain(self.index).unwrap_or(0))
            }
            "reindex_by_subdomain" => self.reindexed(),
            "distribute_powers" => {
                D::distribute_powers(&mut self.list, self.point);
                Answered::List
            }
            "distribute_powers_and_mul_by_const" => {
                D::distribute_powers_and_mul_by_const(&mut self.list, self.point, self.point);
                Answered::List
            }
            "sample_element_outside_domain" => self.is_sample_outside(),
            _ => Answered::NoCall,
        }
    }

    fn number_of_elements(&self) -> usize {
        let mut number = 0_usize;
        for _ in self.domain.elements() {
            number = number.saturating_add(1);
        }
        number
    }

    fn reindexed(&self) -> Answered<F, D> {
        if self.part.size() == 0
            || self.domain.size() % self.part.size() != 0
            || self.index >= self.domain.size()
        {
            return Answered::NoFit;
        }
        Answered::Number(self.domain.reindex_by_subdomain(self.part, self.index))
    }

    // Whether what is drawn is not in the domain.
    fn is_sample_outside(&self) -> Answered<F, D> {
        let mut rng = Pcg64::new(48, 1);
        let sample = self.domain.sample_element_outside_domain(&mut rng, 1000);
        Answered::Flag(sample.is_some_and(|x| !self
            .domain
            .evaluate_vanishing_polynomial(x)
            .is_zero()))
    }
}

// ---- outcomes as answers

fn elements_of<F: FftField, D>(
    made: Result<Vec<F>, PolyError>,
) -> Result<Answered<F, D>, PolyError> {
    Ok(Answered::Elements(made?))
}

fn pairs_answer<F: FftField, D>(
    made: Result<Vec<Lanes<F>>, PolyError>,
) -> Result<Answered<F, D>, PolyError> {
    Ok(Answered::Pairs(made?))
}

// The coefficients of the filter, up to the highest.
fn filter_of<F: FftField, D: EvaluationDomain<F>>(
    alloc: Global,
    domain: &D,
    part: &D,
) -> Result<Answered<F, D>, PolyError> {
    let filter = domain.filter_polynomial(alloc, part)?;
    Ok(Answered::Elements(Vec::from_slice(alloc, filter.coeffs())?))
}

// The domain that is read from its own bytes, whose only refusal is that of memory.
fn read_back<F: FftField, D: EvaluationDomain<F>>(
    alloc: Global,
    domain: &D,
) -> Result<Answered<F, D>, PolyError> {
    match domain_read_back(alloc, domain, Compress::Yes) {
        Ok(read) => Ok(Answered::Domain(Some(read))),
        Err(_) => Err(PolyError::Memory),
    }
}

fn list_changed<F: FftField, D>(done: Result<(), PolyError>) -> Result<Answered<F, D>, PolyError> {
    done?;
    Ok(Answered::List)
}

fn pairs_changed<F: FftField, D>(done: Result<(), PolyError>) -> Result<Answered<F, D>, PolyError> {
    done?;
    Ok(Answered::PairList)
}

// How many values so many items without size have.
fn of_items<F: FftField, D: EvaluationDomain<F>, const N: usize>(
    alloc: Global,
    domain: &D,
) -> Result<usize, PolyError> {
    let items = [Nothing; N];
    Ok(domain.fft(alloc, &items)?.len())
}

// How many values a list of so many items without size has. It is not dropped, which takes a step an item.
fn of_listed_items<F: FftField, D: EvaluationDomain<F>, const N: usize>(
    alloc: Global,
    domain: &D,
) -> Result<usize, PolyError> {
    let items = Vec::from_array(alloc, [Nothing; N]).map_err(|_| PolyError::Memory)?;
    let items = ManuallyDrop::new(items);
    Ok(domain.fft(alloc, &items)?.len())
}

// Both lists, and their items side by side.
fn lists_named<F: Numbered>(
    alloc: Global,
    words: &[String],
) -> Result<(Vec<F>, Vec<F>, Vec<Lanes<F>>), AllocError> {
    let list = elements(alloc, named(words, "list"))?;
    let other = elements(alloc, named(words, "other"))?;
    let pairs = pairs_of(alloc, named(words, "list"), named(words, "other"))?;
    Ok((list, other, pairs))
}

// The items of both lists side by side.
fn pairs_of<F: Numbered>(
    alloc: Global,
    first: &str,
    second: &str,
) -> Result<Vec<Lanes<F>>, AllocError> {
    let (first, second) = (elements::<F>(alloc, first)?, elements::<F>(alloc, second)?);
    let mut pairs = Vec::new(alloc);
    for (x, y) in first.iter().zip(second.iter()) {
        pairs.push(Lanes::new(*x, *y))?;
    }
    Ok(pairs)
}

// The first and the second element of each pair in turn.
fn text_of_pairs<F: Numbered>(alloc: Global, pairs: &[Lanes<F>]) -> Answer {
    let mut elements = Vec::new(alloc);
    for pair in pairs {
        elements.push(pair.get(0))?;
        elements.push(pair.get(1))?;
    }
    text_of(alloc, &elements)
}

// The size and the offset.
fn text_of_domain<F: Numbered, D: EvaluationDomain<F>>(alloc: Global, domain: Option<D>) -> Answer {
    match domain {
        Some(domain) => {
            let (size, offset) = (domain.size(), domain.coset_offset());
            Ok(format!(in alloc; "{size},{offset}")?)
        }
        None => told(alloc, "none"),
    }
}

// The element, where there is one.
fn text_of_option<F: Numbered>(alloc: Global, element: Option<F>) -> Answer {
    match element {
        Some(element) => one(alloc, element),
        None => told(alloc, "none"),
    }
}
