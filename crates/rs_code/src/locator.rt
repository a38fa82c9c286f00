//! The polynomial that is zero exactly at the erased places, and the factors that it gives to the places. All of it is
//! arithmetic of the field's own elements.

ghost use Rattle.std.specs.Prelude.{◌≡◌, ℕ, ◌+◌, ◌-◌, ◌*◌, ◌<◌, ◌≤◌, true, List, get_or, length, IfOk};
ghost use Rattle.std.specs.Prelude.{IsOkUnless, if◌then◌else◌};
ghost use Rattle.ark_math.specs.Univariate.{of_list};
ghost use Rattle.rs_code.specs.Codeword.{mark_count};
ghost use Rattle.rs_code.specs.Locator.{AreFactors, lost};

use crate::marks::count_marked;
use crate::restore::scale_by_exponents;
use crate::turns::factors_by_turns;
use ark_bit_reversed::BlockRoots;
use ark_subproducts::product_over;
use ark_traits::{FftField, Field, PolyError, Work, batch_inversion};
use ark_univariate::{DenseUVPolynomial, EvaluationDomain};
use std::alloc::{AllocError, Global};

// Of fewer places all go by derivatives.
const FEW_PLACES: usize = 256;

/// The factors: at a kept place the value of the polynomial that is zero at the erased ones, and at an erased one the
/// inverse of that of x times its derivative. Where more than a quarter of at least 256 places is erased, a power of two of
/// them, and the field has a table of roots for as many, they come from values at quarter turns.
pub fn factors<F: FftField, D: EvaluationDomain<F>>(
    alloc: Global,
    domain: D,
    erased: &[bool],
) -> Result<Vec<F>, PolyError>
    requires len { length erased.now ≡ (D.domain domain).size }
    requires some_kept { mark_count erased.now < (D.domain domain).size }
    requires subgroup { (D.domain domain).offset ≡ F.field.one }
    ensures factors { IfOk result (λ f. AreFactors F.field (D.domain domain) erased.now f.items) }
    ensures memory { IsOkUnless result PolyError.Memory }
{
    let n = domain.size();
    if n >= FEW_PLACES && n.is_power_of_two() && count_marked(erased) > n / 4 {
        if let Some(table) = BlockRoots::new(alloc, n)? {
            if table.size() == n {
                return Ok(factors_by_turns(alloc, domain, &table, erased)?);
            }
        }
    }
    factors_by_derivative(alloc, domain, erased)
}

// The same, by the values of the polynomial and of x times its derivative, and the inverses of these.
fn factors_by_derivative<F: FftField, D: EvaluationDomain<F>>(
    alloc: Global,
    domain: D,
    erased: &[bool],
) -> Result<Vec<F>, PolyError>
    requires len { length erased.now ≡ (D.domain domain).size }
    requires some_kept { mark_count erased.now < (D.domain domain).size }
    ensures factors { IfOk result (λ f. AreFactors F.field (D.domain domain) erased.now f.items) }
    ensures memory { IsOkUnless result PolyError.Memory }
{
    let roots = lost_elements(alloc, &domain, erased)?;
    let polynomial = product_over(alloc, &roots)?;
    let mut factors = domain.fft(alloc, polynomial.coeffs())?;
    let mut derivatives = Vec::from_slice(alloc, polynomial.coeffs())?;
    scale_by_exponents(derivatives.as_mut_slice(), &mut Work::new());
    let mut inverses = domain.fft(alloc, &derivatives)?;
    batch_inversion(alloc, inverses.as_mut_slice())?;
    choose(factors.as_mut_slice(), &inverses, erased);
    Ok(factors)
}

// The elements at the erased places, in order.
fn lost_elements<F: FftField, D: EvaluationDomain<F>>(
    alloc: Global,
    domain: &D,
    erased: &[bool],
) -> Result<Vec<F>, AllocError>
    ensures { IfOk result (λ v. v.items ≡ lost F.field (D.domain domain.now) erased.now) }
{
    let mut elements = Vec::new(alloc);
    let mut element = domain.coset_offset();
    let root = domain.group_gen();
    for place in erased {
        if *place {
            elements.push(element)?;
        }
        element = element * root;
    }
    Ok(elements)
}

// Takes the other list's items at the marked places.
fn choose<F: Field>(items: &mut [F], others: &[F], marks: &[bool])
    requires others { length others.now ≡ length items.old }
    requires marks { length marks.now ≡ length items.old }
    ensures { (i : ℕ) → i < length items.old → of_list F.field items.new i
        ≡ (if get_or marks.now i true then of_list F.field others.now i else of_list F.field items.old i) }
{
    for i in 0..items.len() {
        if marks[i] {
            items[i] = others[i];
        }
    }
}
