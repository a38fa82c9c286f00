//! Inverses of elements, by Euclid's algorithm.

ghost use Rattle.std.specs.Prelude.{◌≡◌, ◌≢◌};
ghost use Rattle.ark_prime256.specs.Euclid.{IsAlmostInverse};

use super::{PrimeField256, PrimeModulus256};
use crate::euclid::{Step, quotient};
use crate::words::{is_zero, of_word, sum};
use ark_traits::Field;

impl<M: PrimeModulus256> PrimeField256<M> {
    ghost use Rattle.ark_prime256.specs.Element.{field_of};

    // The inverse of an element that is not zero. The steps see its number, and not Montgomery's form; what they
    // give is put into the form, and the halvings are made up for there.
    pub(crate) fn inverse_by_steps(self) -> Self
        requires { self ≢ (field_of M.modulus).zero }
        ensures { (field_of M.modulus).times self result ≡ (field_of M.modulus).one }
    {
        let last = self.last_step();
        let factor: Self = PrimeField256::reduce(last.of_right);
        let negative = factor * PrimeField256::<M>::half().pow(last.halvings);
        if last.turned { negative } else { -negative }
    }

    // The step at which the left number is zero. The right one is then one: times `of_left` it is the prime, and
    // `of_left` is a multiple of the prime.
    fn last_step(self) -> Step
        requires { self ≢ (field_of M.modulus).zero }
        ensures { IsAlmostInverse (field_of M.modulus) self result }
    {
        let mut step = Step {
            left: self.into_bigint(),
            right: M::MODULUS_WORDS,
            of_left: of_word(1),
            of_right: of_word(0),
            halvings: 0,
            turned: false,
        };
        'steps: while !is_zero(step.left) {
            step = if step.left.w0 % 2 == 0 {
                step.halved()
            } else {
                step.lessened()
            };
        }
        step
    }

    // The inverse of two.
    fn half() -> Self
        ensures { (field_of M.modulus).plus result result ≡ (field_of M.modulus).one }
    {
        let (even, _over) = sum(M::MODULUS_WORDS, of_word(1));
        PrimeField256::reduce(quotient(even, 1))
    }
}
