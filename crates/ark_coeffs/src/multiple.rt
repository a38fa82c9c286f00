//! Multiples, which take no product where the factor is one or minus one.

ghost use Rattle.std.specs.Prelude.{◌≡◌};
ghost use Rattle.ark_coeffs.specs.Multiples.{factor_of};

use ark_traits::Field;

/// Which multiple of a value is taken.
#[derive(Clone, Copy)]
pub enum Multiple<F> {
    /// The value itself.
    Same,
    /// The value negated.
    Opposite,
    /// The product with a factor.
    Times(F),
}

impl<F: Field> Multiple<F> {
    /// The multiple by a factor: by one and by minus one it takes no product.
    pub fn by(factor: F) -> Self
        ensures { factor_of F.field result ≡ factor }
    {
        if factor.is_one() {
            Multiple::Same
        } else if factor == -F::one() {
            Multiple::Opposite
        } else {
            Multiple::Times(factor)
        }
    }

    /// The multiple of a value.
    pub fn of(self, value: F) -> F
        ensures { result ≡ F.field.times (factor_of F.field self) value }
    {
        match self {
            Multiple::Same => value,
            Multiple::Opposite => -value,
            Multiple::Times(factor) => factor * value,
        }
    }
}
