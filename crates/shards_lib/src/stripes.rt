//! The code for stripes, a Reed-Solomon code in systematic form: the items of a stripe are the values at the first `k` of `n`
//! elements of a domain of the polynomial with at most `k` coefficients that has these, and its numbers the values at all.

ghost use Rattle.std.specs.Prelude.{◌≡◌, ◌≢◌, ℕ, ◌+◌, ◌*◌, ◌^◌, ◌<◌, ◌≤◌, ◌++◌, true, false, List, get_or, length, map, IfOk, OnOk};
ghost use Rattle.ark_math_points.specs.AtPoints.{AreDifferent, AreWeightsAt};
ghost use Rattle.ark_math.specs.Domain.{element};
ghost use Rattle.ark_math.specs.Module.{itself};
ghost use Rattle.ark_math.specs.Univariate.{of_list};
ghost use Rattle.ark_univariate.specs.Domains.{radix2_domain};
ghost use Rattle.ark_rows.specs.Lanewise.{lanewise};
ghost use Rattle.ark_rows.specs.Row.{lanes};
ghost use Rattle.rs_code.specs.Codeword.{AgreesElsewhere, IsCodeword, mark_count};
ghost use Rattle.shards_lib.specs.Numbers.{IsNumberDomain, number_at_place, numbered, place_element};
ghost use Rattle.shards_lib.specs.Places.{AreKept};
ghost use Rattle.shards_lib.specs.Products.{weighted_row};
ghost use Rattle.shards_lib.specs.Rows.{HasCode};
ghost use Rattle.shards_lib.specs.Weights.{AreWeights, IsExtender};

use crate::field::NumberField;
use crate::products::{MOST_TERMS, write_sums};
use crate::rows::{StripeGroup, put_rows, word_rows};
use ark_base::Zero;
use ark_fields::F65537;
use ark_points::{PointsError, weights_at};
use ark_rows::Row;
use ark_univariate::{EvaluationDomain, Radix2EvaluationDomain};
use rs_code::{DomainCode, DomainDecoder, RsError};
use shards_format::{PlacedNumbers, StripeCode};
use std::alloc::{AllocError, Global};

/// The code of files: over the field of 65537 elements, sixteen stripes at once where transforms are taken.
pub type FileCode = RowCode<F65537, 16>;

/// A code that takes `N` stripes at once through transforms, for all `k` and `n` with `0 < k`, `k <= n` and `n <= 2^16`.
///
/// Contracts see `k` and `n`.
#[derive(Drop)]
pub struct RowCode<F: NumberField, const N: usize> {
    code: DomainCode<F, Radix2EvaluationDomain<F>>,
    domain: Radix2EvaluationDomain<F>,
    n: usize,
    // What rows begin as. With it a code is as large as a row, so that no row is too large for memory.
    zero: Row<F, N>,
    ghost some: { 0 < code.k },
    ghost fits: { code.k ≤ n },
    ghost few: { n ≤ 65536 },
    ghost room: { n ≤ code.domain.size },
    ghost differ: { (i j : ℕ) → i < code.domain.size → j < code.domain.size
        → element F.field code.domain i ≡ element F.field code.domain j → i ≡ j },
    ghost over: { IsNumberDomain F.field F.root n code.domain },
    ghost same: { radix2_domain domain ≡ code.domain },
    ghost wide: { 0 < N },
}

/// What numbers at wanted places are found by from those at `k` given ones: by weights, where there are some, else through
/// the transforms of a decoder.
///
/// Contracts see its fields.
#[derive(Drop)]
pub struct RowExtender<F: NumberField, const N: usize> {
    decoder: DomainDecoder<F, Radix2EvaluationDomain<F>>,
    given: Vec<usize>,
    wanted: Vec<usize>,
    weights: Vec<u32>,
    // With it an extender is as large as a row, so that no row is too large for memory.
    zero: Row<F, N>,
}

impl<F: NumberField, const N: usize> StripeCode for RowCode<F, N> {
    ghost use Rattle.shards_lib.specs.Numbers.{number_at_place, number_below};
    ghost use Rattle.shards_lib.specs.Systematic.{item_at_place};

    type Extender = RowExtender<F, N>;

    ghost number = { number_at_place (numbered F.field F.root F.inverse_of F.number) };

    ghost k_of = { λ c. c.code.k };

    ghost n_of = { λ c. c.n };

    ghost has = { HasCode N };

    ghost is_of = { λ c e. IsExtender (numbered F.field F.root F.inverse_of F.number) c.code c.n e.decoder
        e.given.items e.wanted.items e.weights.items };

    ghost given_of = { λ e. e.given.items };

    ghost wanted_of = { λ e. e.wanted.items };

    ghost number_below = { number_below (numbered F.field F.root F.inverse_of F.number) };

    ghost number_fits = { λ k n a i. F.number_fits _ };

    ghost systematic = { λ k n a i has l small. item_at_place F.field F.field_laws F.adicity F.root F.roots_law
        F.has_domains F.inverse_of F.inverse_law F.number F.number_natural N k n a i has l small };

    fn new(k: usize, n: usize) -> Option<Self> {
        if N == 0 || k == 0 || n < k || 65536 < n {
            return None;
        }
        let domain = Radix2EvaluationDomain::new(n)?;
        let code = DomainCode::new(k, n)?;
        Some(RowCode {
            code,
            domain,
            n,
            zero: Row::zero(),
        })
    }

    fn k(&self) -> usize {
        self.code.k()
    }

    fn n(&self) -> usize {
        self.n
    }

    fn extender(
        &self,
        alloc: Global,
        given: &[usize],
        wanted: &[usize],
    ) -> Result<RowExtender<F, N>, AllocError> {
        let decoder = self.decoder(alloc, given)?;
        let weights = self.weights(alloc, given, wanted)?;
        let given = Vec::from_slice(alloc, given)?;
        let wanted = Vec::from_slice(alloc, wanted)?;
        Ok(RowExtender {
            decoder,
            given,
            wanted,
            weights,
            zero: Row::zero(),
        })
    }

    fn extend(
        &self,
        alloc: Global,
        extender: &RowExtender<F, N>,
        given: &PlacedNumbers<'_>,
        wanted: &mut [u32],
    ) -> Result<(), AllocError> {
        let weights: &[u32] = &extender.weights;
        if weights.is_empty() {
            return self.extend_groups(alloc, extender, given, wanted);
        }
        self.extend_directly(extender, given, wanted);
        Ok(())
    }
}

impl<F: NumberField, const N: usize> RowCode<F, N> {
    // The decoder for words of which these places are kept.
    fn decoder(
        &self,
        alloc: Global,
        places: &[usize],
    ) -> Result<DomainDecoder<F, Radix2EvaluationDomain<F>>, AllocError>
        requires places { length places.now ≡ self.now.code.k }
        requires below { (a : ℕ) → a < length places.now → get_or places.now a 0 < self.now.n }
        requires apart { (a b : ℕ) → a < b → b < length places.now → get_or places.now a 0 ≢ get_or places.now b 0 }
        ensures code { IfOk result (λ d. d.code ≡ self.now.code) }
        ensures kept { IfOk result (λ d. AreKept self.now.code.domain.size d.erased places.now) }
    {
        let erased = erased_places(alloc, self.code.n(), places)?;
        match self.code.decoder(alloc, &erased) {
            Ok(decoder) => Ok(decoder),
            Err(error) => Err(refused(error)),
        }
    }

    // The weights of the numbers at given places in those at wanted ones, where they are quicker than transforms; else
    // nothing.
    fn weights(
        &self,
        alloc: Global,
        given: &[usize],
        wanted: &[usize],
    ) -> Result<Vec<u32>, AllocError>
        requires given { (a : ℕ) → a < length given.now → get_or given.now a 0 < self.now.n }
        requires apart { (a b : ℕ) → a < b → b < length given.now → get_or given.now a 0 ≢ get_or given.now b 0 }
        requires wanted { (b : ℕ) → b < length wanted.now → get_or wanted.now b 0 < self.now.n }
        ensures { IfOk result (λ weights. 0 < length weights.items
            → AreWeights (numbered F.field F.root F.inverse_of F.number) self.now.n given.now wanted.now weights.items) }
    {
        let mut weights = Vec::new(alloc);
        if !goes_directly(self.n, given.len(), wanted.len()) {
            return Ok(weights);
        }
        let points = self.elements(alloc, given)?;
        for b in 0..wanted.len() {
            let added = self.weights_in(alloc, &points, wanted[b])?;
            push_numbers(&mut weights, &added)?;
        }
        Ok(weights)
    }

    // The elements at these places.
    fn elements(&self, alloc: Global, places: &[usize]) -> Result<Vec<F>, AllocError>
        requires { (a : ℕ) → a < length places.now → get_or places.now a 0 < self.now.n }
        ensures len { IfOk result (λ v. length v.items ≡ length places.now) }
        ensures elements { IfOk result (λ v. (a : ℕ) → a < length places.now → of_list F.field v.items a
            ≡ place_element F.field F.root self.now.n (get_or places.now a 0)) }
    {
        let mut elements = Vec::with_capacity(alloc, places.len())?;
        for a in 0..places.len() {
            elements.push(self.element_at(places[a]))?;
        }
        Ok(elements)
    }

    // The element at a place.
    fn element_at(&self, place: usize) -> F
        ensures { result ≡ place_element F.field F.root self.now.n place }
    {
        self.domain.element(place)
    }

    // The weights of the values at the points in that at a place.
    fn weights_in(&self, alloc: Global, points: &[F], place: usize) -> Result<Vec<F>, AllocError>
        requires different { AreDifferent (length points.now) (of_list F.field points.now) }
        ensures { IfOk result (λ w. AreWeightsAt F.field (length points.now) (of_list F.field points.now)
            (place_element F.field F.root self.now.n place) w.items) }
    {
        match weights_at(alloc, points, self.element_at(place)) {
            Ok(weights) => Ok(weights),
            Err(error) => Err(never_repeated(error)),
        }
    }

    // The numbers of all stripes by weights.
    fn extend_directly(
        &self,
        extender: &RowExtender<F, N>,
        given: &PlacedNumbers<'_>,
        wanted: &mut [u32],
    )
        requires code { IsExtender (numbered F.field F.root F.inverse_of F.number) self.now.code self.now.n
            extender.now.decoder extender.now.given.items extender.now.wanted.items extender.now.weights.items }
        requires weights { 0 < length extender.now.weights.items }
        requires given { given.now.places.now ≡ extender.now.given.items }
        requires small { (p : ℕ) → get_or given.now.numbers.now p 0 ≤ 65536 }
        requires wanted { length wanted.old ≡ length extender.now.wanted.items * given.now.stripes }
        ensures { (s : ℕ) (stripe : ℕ → ℕ) → s < given.now.stripes
            → ((a : ℕ) → a < self.now.code.k → get_or given.now.numbers.now (a * given.now.stripes + s) 0
            ≡ number_at_place (numbered F.field F.root F.inverse_of F.number) self.now.code.k self.now.n stripe
            (get_or given.now.places.now a 0))
            → (b : ℕ) → b < length extender.now.wanted.items → get_or wanted.new (b * given.now.stripes + s) 0
            ≡ number_at_place (numbered F.field F.root F.inverse_of F.number) self.now.code.k self.now.n stripe
            (get_or extender.now.wanted.items b 0) }
    {
        let places: &[usize] = &extender.wanted;
        write_rows::<F>(&extender.weights, given, places.len(), wanted);
    }

    // The numbers of all stripes through transforms, a group at a time.
    fn extend_groups(
        &self,
        alloc: Global,
        extender: &RowExtender<F, N>,
        given: &PlacedNumbers<'_>,
        wanted: &mut [u32],
    ) -> Result<(), AllocError>
        requires code { IsExtender (numbered F.field F.root F.inverse_of F.number) self.now.code self.now.n
            extender.now.decoder extender.now.given.items extender.now.wanted.items extender.now.weights.items }
        requires given { given.now.places.now ≡ extender.now.given.items }
        requires wanted { length wanted.old ≡ length extender.now.wanted.items * given.now.stripes }
        ensures { OnOk result ((s : ℕ) (stripe : ℕ → ℕ) → s < given.now.stripes
            → ((a : ℕ) → a < self.now.code.k → get_or given.now.numbers.now (a * given.now.stripes + s) 0
            ≡ number_at_place (numbered F.field F.root F.inverse_of F.number) self.now.code.k self.now.n stripe
            (get_or given.now.places.now a 0))
            → (b : ℕ) → b < length extender.now.wanted.items → get_or wanted.new (b * given.now.stripes + s) 0
            ≡ number_at_place (numbered F.field F.root F.inverse_of F.number) self.now.code.k self.now.n stripe
            (get_or extender.now.wanted.items b 0)) }
    {
        let way = Extension { given, extender };
        for index in 0..groups(given.stripes, N) {
            let first = index * N;
            let group = StripeGroup {
                first,
                count: N.min(given.stripes - first),
                all: given.stripes,
            };
            self.extend_group(alloc, &way, group, wanted)?;
        }
        Ok(())
    }

    // The numbers of a group.
    fn extend_group(
        &self,
        alloc: Global,
        way: &Extension<'_, F, N>,
        group: StripeGroup,
        wanted: &mut [u32],
    ) -> Result<(), AllocError>
        requires code { IsExtender (numbered F.field F.root F.inverse_of F.number) self.now.code self.now.n
            way.now.extender.now.decoder way.now.extender.now.given.items way.now.extender.now.wanted.items
            way.now.extender.now.weights.items }
        requires given { way.now.given.now.places.now ≡ way.now.extender.now.given.items }
        requires count { group.count ≤ N }
        requires stripes { group.all ≡ way.now.given.now.stripes }
        requires wanted { length wanted.old ≡ length way.now.extender.now.wanted.items * group.all }
        ensures written { OnOk result ((t : ℕ) (stripe : ℕ → ℕ) → t < group.count
            → ((a : ℕ) → a < self.now.code.k
            → get_or way.now.given.now.numbers.now (a * group.all + (group.first + t)) 0
            ≡ number_at_place (numbered F.field F.root F.inverse_of F.number) self.now.code.k self.now.n stripe
            (get_or way.now.given.now.places.now a 0))
            → (b : ℕ) → b < length way.now.extender.now.wanted.items
            → get_or wanted.new (b * group.all + (group.first + t)) 0
            ≡ number_at_place (numbered F.field F.root F.inverse_of F.number) self.now.code.k self.now.n stripe
            (get_or way.now.extender.now.wanted.items b 0)) }
        ensures kept { OnOk result ((b s : ℕ) → b < length way.now.extender.now.wanted.items → s < group.first
            → get_or wanted.new (b * group.all + s) 0 ≡ get_or wanted.old (b * group.all + s) 0) }
    {
        let word = word_rows::<F, N>(alloc, self.code.n(), way.given, group)?;
        let codeword = self.codeword(alloc, &way.extender.decoder, &word)?;
        put_rows(&codeword, &way.extender.wanted, group, wanted);
        Ok(())
    }

    // The codeword that agrees with a word at the kept places. As many places as a stripe has items are kept, so there is
    // one, and memory alone may be lacking.
    fn codeword(
        &self,
        alloc: Global,
        decoder: &DomainDecoder<F, Radix2EvaluationDomain<F>>,
        word: &[Row<F, N>],
    ) -> Result<Vec<Row<F, N>>, AllocError>
        requires code { decoder.now.code ≡ self.now.code }
        requires kept { mark_count decoder.now.erased + self.now.code.k ≡ self.now.code.domain.size }
        requires len { length word.now ≡ self.now.code.domain.size }
        ensures len { IfOk result (λ c. length c.items ≡ self.now.code.domain.size) }
        ensures codeword { IfOk result (λ c. IsCodeword F.field (lanewise (itself F.field)) self.now.code.domain
            self.now.code.k (map (lanes F.field) c.items)) }
        ensures agrees { IfOk result (λ c. AgreesElsewhere (lanewise (itself F.field)) decoder.now.erased
            (map (lanes F.field) word.now) (map (lanes F.field) c.items)) }
    {
        match decoder.restore(alloc, word) {
            Ok(codeword) => Ok(codeword),
            Err(error) => Err(refused(error)),
        }
    }
}

// Numbers at given places, and what those at wanted ones are found by.
#[derive(Drop)]
struct Extension<'a, F: NumberField, const N: usize> {
    given: &'a PlacedNumbers<'a>,
    extender: &'a RowExtender<F, N>,
}

// Writes so many rows of numbers, each the sum of the given rows times its own weights.
fn write_rows<F: NumberField>(
    weights: &[u32],
    given: &PlacedNumbers<'_>,
    count: usize,
    wanted: &mut [u32],
)
    requires few { length given.now.places.now ≤ MOST_TERMS }
    requires weights { length weights.now ≡ count * length given.now.places.now }
    requires fit { (p : ℕ) → get_or weights.now p 0 ≤ 65536 }
    requires small { (p : ℕ) → get_or given.now.numbers.now p 0 ≤ 65536 }
    requires wanted { length wanted.old ≡ count * given.now.stripes }
    ensures { (b s : ℕ) → b < count → s < given.now.stripes → get_or wanted.new (b * given.now.stripes + s) 0
        ≡ F.number (weighted_row F.field weights.now given.now.numbers.now given.now.stripes
        (length given.now.places.now) b s) }
{
    let k = given.places.len();
    let stripes = given.stripes;
    for b in 0..count {
        let first = b * k;
        let start = b * stripes;
        write_sums::<F>(
            &weights[first..first + k],
            given.numbers,
            &mut wanted[start..start + stripes],
        );
    }
}

// Whether numbers at so many of n places are found quicker by weights than through transforms.
fn goes_directly(n: usize, given: usize, wanted: usize) -> bool
    ensures { result ≡ true → given ≤ MOST_TERMS }
{
    given <= MOST_TERMS && wanted <= products_of_transforms(n) / products_of_weights(given)
}

// How many products a stripe takes for each wanted place: one for each given place, and, to make the weights, its share of two
// for each two of these, in a file of 2^20 bytes.
fn products_of_weights(given: usize) -> usize
    ensures { 0 < result }
{
    let cube = given.saturating_mul(given).saturating_mul(given);
    given.saturating_add(cube / 45_000).max(1)
}

// The products that take as long as transforms over a power of two of places that has room for n.
fn products_of_transforms(n: usize) -> usize {
    match n {
        0..=128 => 4_500,
        129..=256 => 10_800,
        257..=512 => 22_700,
        513..=1024 => 52_000,
        _ => 110_000,
    }
}

// Adds the numbers of elements.
fn push_numbers<F: NumberField>(numbers: &mut Vec<u32>, elements: &[F]) -> Result<(), AllocError>
    ensures { OnOk result (numbers.new.items ≡ numbers.old.items ++ map F.number elements.now) }
{
    for element in elements {
        numbers.push(element.to_number())?;
    }
    Ok(())
}

// What refused memory is here: no other error comes.
fn refused(_error: RsError) -> AllocError
    requires { _error ≡ RsError.Memory }
{
    AllocError
}

// What refused memory is here: the points differ.
fn never_repeated(_error: PointsError) -> AllocError
    requires { _error ≡ PointsError.Memory }
{
    AllocError
}

// How many groups so many stripes are, the last one smaller.
fn groups(stripes: usize, size: usize) -> usize
    requires { 0 < size }
    ensures all { stripes ≤ result * size }
    ensures each { (group : ℕ) → group < result → group * size < stripes }
{
    if stripes == 0 {
        return 0;
    }
    (stripes - 1) / size + 1
}

// Which places are erased, where these are kept.
fn erased_places(alloc: Global, size: usize, places: &[usize]) -> Result<Vec<bool>, AllocError>
    requires below { (a : ℕ) → a < length places.now → get_or places.now a 0 < size }
    requires apart { (a b : ℕ) → a < b → b < length places.now → get_or places.now a 0 ≢ get_or places.now b 0 }
    ensures len { IfOk result (λ erased. length erased.items ≡ size) }
    ensures count { IfOk result (λ erased. mark_count erased.items + length places.now ≡ size) }
    ensures unmarked { IfOk result (λ erased. (a : ℕ) → a < length places.now
        → get_or erased.items (get_or places.now a 0) true ≡ false) }
{
    let mut erased = vec![in alloc; true; size]?;
    keep_places(erased.as_mut_slice(), places);
    Ok(erased)
}

// Takes the marks off these places.
fn keep_places(erased: &mut [bool], places: &[usize])
    requires marked { (i : ℕ) → get_or erased.old i true ≡ true }
    requires below { (a : ℕ) → a < length places.now → get_or places.now a 0 < length erased.old }
    requires apart { (a b : ℕ) → a < b → b < length places.now → get_or places.now a 0 ≢ get_or places.now b 0 }
    ensures count { mark_count erased.new + length places.now ≡ length erased.old }
    ensures unmarked { (a : ℕ) → a < length places.now → get_or erased.new (get_or places.now a 0) true ≡ false }
{
    for a in 0..places.len() {
        erased[places[a]] = false;
    }
}
