//! Whether points differ.

ghost use Rattle.std.specs.Prelude.{◌≡◌, ◌↔◌, ℕ, ◌<◌, ◌≤◌, length, IsTrue};
ghost use Rattle.ark_math.specs.Univariate.{of_list};
ghost use Rattle.ark_math_points.specs.AtPoints.{HasRepeated};

use ark_traits::Field;

/// Whether two of the points are one. It compares each two of them, and takes no memory.
pub fn has_repeated<F: Field>(points: &[F]) -> bool
    ensures { IsTrue result ↔ HasRepeated (length points.now) (of_list F.field points.now) }
{
    for i in 0..points.len() {
        if is_among_first(points, i, points[i]) {
            return true;
        }
    }
    false
}

// Whether one of the first n points is this one.
fn is_among_first<F: Field>(points: &[F], n: usize, point: F) -> bool
    requires { n ≤ length points.now }
    ensures { IsTrue result ↔ (i : ℕ) × (i < n) × (of_list F.field points.now i ≡ point) }
{
    for i in 0..n {
        if points[i] == point {
            return true;
        }
    }
    false
}
