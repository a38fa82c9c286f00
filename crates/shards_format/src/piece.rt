//! A piece: a header with a label, a body, and a trailer.

ghost use Rattle.std.specs.Prelude.{◌≡◌, ℕ, ◌+◌, ◌*◌, ◌<◌, ◌≤◌, ◌^◌, ◌↔◌, IsTrue};
ghost use Rattle.shards_format.specs.Pieces.{blocks, body_size, mark_size, part_size};

use crate::block_parts::stripes;
use crate::parts::PART;
use thiserror::Error;

/// How many bytes a SHA-256 has.
pub const DIGEST: usize = 32;

/// Why bytes are no whole piece.
#[derive(Clone, Copy, Debug, PartialEq, Eq, Hash, Error)]
pub enum Damage {
    /// They don't begin as a piece does, or have not the length, the name or the numbers of one.
    #[error("not a piece, or cut short")]
    NoPiece,
    /// They begin as a piece of another version does.
    #[error("a piece of version {0}, and not of version 2")]
    Version(u8),
    /// Header, label and body are not those that the digest in the trailer was made of.
    #[error("damaged")]
    Changed,
}

/// How many blocks so many bytes are, the last one of fewer stripes.
pub fn blocks(k: usize, len: usize) -> usize
    requires positive { 0 < k }
    requires few { k ≤ 65536 }
    requires len { len < 2 ^ 62 }
    ensures { result ≡ blocks k len }
{
    let size = 2 * k * PART;
    (len + (size - 1)) / size
}

/// How many bytes the mark in a part of the piece of this number has: none in the first `k`, whose numbers are bytes of
/// the file.
pub fn mark_size(k: usize, number: usize) -> usize
    ensures { result ≡ mark_size k number }
{
    if number < k { 0 } else { 4 }
}

/// How many bytes a part of 1024 numbers has in the piece of this number.
pub fn part_size(k: usize, number: usize) -> usize
    ensures { result ≡ part_size k number }
{
    mark_size(k, number) + 2 * PART
}

/// How many bytes the body of the piece of this number has, of a file of so many.
pub fn body_size(k: usize, number: usize, len: usize) -> usize
    requires positive { 0 < k }
    requires few { k ≤ 65536 }
    requires len { len < 2 ^ 62 }
    ensures { result ≡ body_size k number len }
{
    mark_size(k, number) * blocks(k, len) + 2 * stripes(k, len)
}

/// Whether the bytes are the same.
pub fn are_same(bytes: &[u8], others: &[u8]) -> bool
    ensures { IsTrue result ↔ (bytes.now ≡ others.now) }
{
    bytes == others
}
