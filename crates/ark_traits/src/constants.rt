//! Fields whose zero constants may name.

ghost use Rattle.std.specs.Prelude.{◌≡◌};

use crate::field::Field;

/// A field with a constant zero. No constant may call `Zero::zero`.
pub trait ConstantZero: Field {
    ghost ZERO: { Self };

    /// Zero.
    const ZERO: Self;

    ghost zero_constant: { ZERO ≡ Self.field.zero };
}
