//! What a piece begins with.

ghost use Rattle.std.specs.Prelude.{◌≡◌, ℕ, ◌+◌, ◌<◌, ◌≤◌, ◌++◌, length, IfOk, IfErr, IfSome, IsNone, IsOk};
ghost use Rattle.std.specs.Int.{w32, to_le_bytes};
ghost use Rattle.shards_format.specs.Headers.{header_bytes, magic, version};

use crate::piece::Damage;
use std::alloc::{AllocError, Global};

/// The bytes that each piece begins with.
pub const MAGIC: [u8; 7] = *b"shards\x00";

/// The format's version, which follows them.
pub const VERSION: u8 = 2;

/// How many bytes a header has.
pub const HEADER: usize = 24;

/// What a piece says of itself. The label comes behind it: what is known of the file, the same in all pieces.
#[derive(Clone, Copy, Debug, PartialEq, Eq)]
pub struct Header {
    /// How many pieces give the file back.
    pub k: u32,
    /// How many pieces there are.
    pub n: u32,
    /// Which of them this is, from 0 on.
    pub number: u32,
    /// How many bytes the label has.
    pub label_len: u32,
    ghost some: { 0 < k },
    ghost fits: { k ≤ n },
    ghost few: { n ≤ 65536 },
    ghost below: { number < n },
    ghost short: { label_len < 65536 },
}

impl Header {
    ghost use Rattle.shards_format.specs.declared.header.Header.{Header};

    /// The header's bytes.
    pub fn to_bytes(&self, alloc: Global) -> Result<Vec<u8>, AllocError>
        ensures { IfOk result (λ bytes. bytes.items
            ≡ header_bytes self.now.k self.now.n self.now.number self.now.label_len) }
    {
        let mut bytes = Vec::with_capacity(alloc, HEADER)?;
        bytes.extend_from_slice(&MAGIC)?;
        bytes.push(VERSION)?;
        bytes.extend_from_slice(&self.k.to_le_bytes())?;
        bytes.extend_from_slice(&self.n.to_le_bytes())?;
        bytes.extend_from_slice(&self.number.to_le_bytes())?;
        bytes.extend_from_slice(&self.label_len.to_le_bytes())?;
        Ok(bytes)
    }

    /// The header that these bytes are. Others are of another version, or of no piece.
    pub fn from_bytes(bytes: &[u8]) -> Result<Header, Damage>
        ensures header { IfOk result (λ h. bytes.now ≡ header_bytes h.k h.n h.number h.label_len) }
        ensures none { IfErr result (λ e. (h : Header) → bytes.now ≡ header_bytes h.k h.n h.number h.label_len → ⊥) }
    {
        match numbers_of(bytes) {
            Ok((k, n, number, label_len)) => {
                lawful(k, n, number, label_len).ok_or(Damage::NoPiece)
            }
            Err(damage) => Err(damage),
        }
    }
}

// The numbers of a header.
fn numbers_of(bytes: &[u8]) -> Result<(u32, u32, u32, u32), Damage>
    ensures numbers { IfOk result (λ x. bytes.now ≡ header_bytes x.0 x.1 x.2 x.3) }
    ensures none { IfErr result (λ e. (k n number label_len : ℕ) → bytes.now ≡ header_bytes k n number label_len → ⊥) }
{
    if bytes.len() != HEADER {
        return Err(Damage::NoPiece);
    }
    let (start, numbers) = bytes.split_at(8);
    check_start(start)?;
    let (k, numbers) = take_number(numbers);
    let (n, numbers) = take_number(numbers);
    let (number, numbers) = take_number(numbers);
    let (label_len, _) = take_number(numbers);
    Ok((k, n, number, label_len))
}

// The header with these numbers, where a piece can have them.
fn lawful(k: u32, n: u32, number: u32, label_len: u32) -> Option<Header>
    ensures k { IfSome result (λ h. h.k ≡ k) }
    ensures n { IfSome result (λ h. h.n ≡ n) }
    ensures number { IfSome result (λ h. h.number ≡ number) }
    ensures label_len { IfSome result (λ h. h.label_len ≡ label_len) }
    ensures none { IsNone result → 0 < k → k ≤ n → n ≤ 65536 → number < n → label_len < 65536 → ⊥ }
{
    if 0 < k && k <= n && n <= 65536 && number < n && label_len < 65536 {
        Some(Header {
            k,
            n,
            number,
            label_len,
        })
    } else {
        None
    }
}

// Refuses what is not the beginning of a piece of this version.
fn check_start(start: &[u8]) -> Result<(), Damage>
    requires { length start.now ≡ 8 }
    ensures ok { IsOk result → start.now ≡ magic ++ version }
    ensures others { IfErr result (λ e. start.now ≡ magic ++ version → ⊥) }
{
    let (letters, version) = start.split_at(7);
    if letters != MAGIC.as_slice() {
        return Err(Damage::NoPiece);
    }
    if version[0] != VERSION {
        return Err(Damage::Version(version[0]));
    }
    Ok(())
}

// The number that the bytes begin with, and what is behind it.
fn take_number(bytes: &[u8]) -> (u32, &[u8])
    requires { 4 ≤ length bytes.now }
    ensures { bytes.entry.now ≡ to_le_bytes w32 result.0 ++ result.1.now }
{
    let (four, rest) = bytes.split_at(4);
    (
        u32::from_le_bytes([four[0], four[1], four[2], four[3]]),
        rest,
    )
}
