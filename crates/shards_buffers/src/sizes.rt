//! How long pieces are, and where they stand one after another.

ghost use Rattle.std.specs.Prelude.{◌≡◌, ◌↔◌, ℕ, ◌+◌, ◌*◌, ◌<◌, ◌≤◌, ◌^◌, IsSome, IfSome, IsTrue};
ghost use Rattle.shards_buffers.specs.Sizes.{FitPieces, piece_size, piece_start};

use shards_format::{HEADER, blocks, body_size, trailer_size};

/// How many bytes the piece of this number has, of a file of `len` bytes whose label has `label_len`.
///
/// `None` where no such piece is: unless `0 < k ≤ n ≤ 65536`, `number < n`, `label_len < 65536` and
/// `len < 2^62`.
pub fn piece_size(k: usize, n: usize, number: usize, label_len: usize, len: usize) -> Option<usize>
    ensures size { IfSome result (λ size. size ≡ piece_size k n number label_len len) }
    ensures some { IsSome result ↔ (FitPieces k n label_len len × (number < n)) }
{
    if fit_pieces(k, n, label_len, len) && number < n {
        Some(HEADER + label_len + body_size(k, number, len) + trailer_size(n))
    } else {
        None
    }
}

/// How many bytes the pieces before the one of this number have: where it begins, if all stand one after another,
/// and for `n` how many bytes they have in all.
///
/// `None` where there is no such file, as for `piece_size`, where `number` is above `n`, or at 2^64 bytes.
pub fn piece_start(k: usize, n: usize, number: usize, label_len: usize, len: usize) -> Option<usize>
    ensures start { IfSome result (λ start. start ≡ piece_start k n label_len len number) }
    ensures some { IsSome result ↔ (FitPieces k n label_len len × (number ≤ n)
        × (piece_start k n label_len len number < 2 ^ 64)) }
{
    if !fit_pieces(k, n, label_len, len) || number > n {
        return None;
    }
    let size = HEADER + label_len + body_size(k, 0, len) + trailer_size(n);
    let marks = number.saturating_sub(k).checked_mul(4 * blocks(k, len))?;
    number.checked_mul(size)?.checked_add(marks)
}

// Whether there are pieces of such a file.
fn fit_pieces(k: usize, n: usize, label_len: usize, len: usize) -> bool
    ensures { IsTrue result ↔ FitPieces k n label_len len }
{
    0 < k && k <= n && n <= 65536 && label_len < 65536 && len < 1 << 62
}
