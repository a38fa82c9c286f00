//! The domains of a transform's parts.

ghost use Rattle.std.specs.Prelude.{◌≡◌, ◌≢◌, ◌↔◌, ◌⊎◌, true, ◌-◌, ◌*◌, ◌<◌, ◌≤◌, ◌^◌, IfSome, IsNone};
ghost use Rattle.ark_math.specs.Field.{power};
ghost use Rattle.ark_math.specs.Domain.{radix2, element};
ghost use Rattle.ark_fft.specs.Coset.{coset_domain};
ghost use Rattle.ark_fft_parts.specs.Parts.{of_columns, of_row};

use ark_fft::domain::Coset;
use ark_traits::FftField;
use std::alloc::AllocError;

/// A radix 2 domain of `n = r * c` elements, and those of the parts of its transforms: a list of `n` items
/// is read as `r` rows of `c` items each. A column has `r` items, a row `c`.
#[derive_where(Copy, Debug; F)]
pub struct Parts<F: FftField> {
    pub whole: Coset<F>,
    /// The domain of each column, of as many elements as there are rows.
    pub column: Coset<F>,
    /// The subgroup of the rows' domains, of as many elements as there are columns.
    pub row: Coset<F>,
    ghost size_is: { whole.size ≡ column.size * row.size },
    ghost columns_even: { column.odd_exponent ≡ 0 },
    ghost rows_even: { row.odd_exponent ≡ 0 },
    ghost column_offset_is: { F.eq column.offset (power F.field whole.offset row.size) ≡ true },
}

impl<F: FftField> Clone for Parts<F> {
    ghost is_clone = { λ a b. b ≡ a };

    ghost is_infallible = { λ _. Unit {0} };

    fn clone(&self) -> Result<Self, AllocError> {
        Ok(*self)
    }
}

impl<F: FftField> Parts<F> {
    /// The parts of a radix 2 domain by `2^log_rows` rows, and `None` exactly where the size isn't a power of
    /// two that many rows divide. It takes two roots of unity and five inverses.
    pub fn new(whole: &Coset<F>, log_rows: u32) -> Option<Parts<F>>
        ensures whole { IfSome result (λ parts. parts.whole ≡ whole.now) }
        ensures rows { IfSome result (λ parts. parts.column.size ≡ 2 ^ log_rows) }
        ensures columns { IfSome result (λ parts. parts.row.size ≡ 2 ^ (whole.now.log_size_of_group - log_rows)) }
        ensures none { IsNone result ↔ (whole.now.odd_exponent ≢ 0) ⊎ (whole.now.log_size_of_group < log_rows) }
    {
        if whole.odd_exponent != 0 || whole.log_size_of_group < log_rows {
            return None;
        }
        Some(Parts::of_rows(whole, log_rows))
    }

    // The parts of a domain whose size is a power of two, by so many rows.
    fn of_rows(whole: &Coset<F>, log_rows: u32) -> Parts<F>
        requires even { whole.now.odd_exponent ≡ 0 }
        requires within { log_rows ≤ whole.now.log_size_of_group }
        ensures whole { result.whole ≡ whole.now }
        ensures rows { result.column.size ≡ 2 ^ log_rows }
        ensures columns { result.row.size ≡ 2 ^ (whole.now.log_size_of_group - log_rows) }
    {
        let log_columns = whole.log_size_of_group - log_rows;
        let rows = Coset::subgroup(1 << log_rows, log_rows, 0);
        let row = Coset::subgroup(1 << log_columns, log_columns, 0);
        let column = rows.with_offset(whole.offset.pow(row.size)).unwrap();
        Parts {
            whole: *whole,
            column,
            row,
        }
    }

    /// The domain of row `i`, whose offset is element `i` of the whole. It takes an inverse and two powers.
    pub fn row_domain(&self, i: usize) -> Coset<F>
        ensures domain { coset_domain radix2 result ≡ of_row F.field (coset_domain radix2 self.now.whole)
            self.now.column.size self.now.row.size i }
        ensures size { result.size ≡ self.now.row.size }
        ensures even { result.odd_exponent ≡ 0 }
    {
        let element = self.whole.offset * self.whole.group_gen.pow(i as u64);
        self.row.with_offset(element).unwrap()
    }

    /// The domain of each column: its offset is that of the whole to the number of columns.
    pub fn column_domain(&self) -> Coset<F>
        ensures domain { coset_domain radix2 result ≡ of_columns F.field (coset_domain radix2 self.now.whole)
            self.now.column.size self.now.row.size }
        ensures size { result.size ≡ self.now.column.size }
        ensures even { result.odd_exponent ≡ 0 }
    {
        self.column
    }
}
