//! What a piece ends with.

ghost use Rattle.std.specs.Prelude.{◌≡◌, ◌⊎◌, ℕ, true, false, List, ◌+◌, ◌*◌, ◌<◌, ◌≤◌, ◌^◌, ◌++◌, length, IfOk, IfSome, IsNone};
ghost use Rattle.std.specs.Int.{w64, to_le_bytes};
ghost use Rattle.shards_format.specs.Files.{Collide};
ghost use Rattle.shards_format.specs.Pieces.{chunk};
ghost use Rattle.shards_format.specs.Trailers.{listing, set_name, trailer_bytes};

use crate::parts::chunk;
use crate::piece::{DIGEST, are_same};
use sha2::{Digest, Sha256};
use std::alloc::{AllocError, Global};

/// What a piece says of its set, the same in all pieces.
#[derive(Debug, Drop)]
pub struct Trailer {
    /// The SHA-256 of header, label and body of each piece, one after another.
    pub digests: Vec<u8>,
    /// How many bytes the file has.
    pub len: u64,
    ghost few: { len < 2 ^ 62 },
}

/// How many bytes the trailers of `n` pieces have.
pub fn trailer_size(n: usize) -> usize
    requires { n ≤ 65536 }
    ensures { result ≡ 32 * n + 40 }
{
    DIGEST * n + 8 + DIGEST
}

impl Trailer {
    /// The trailer's bytes.
    pub fn to_bytes(&self, alloc: Global) -> Result<Vec<u8>, AllocError>
        ensures { IfOk result (λ bytes. bytes.items ≡ trailer_bytes self.now.digests.items self.now.len) }
    {
        let mut bytes = Vec::from_slice(alloc, &self.digests)?;
        bytes.extend_from_slice(&self.len.to_le_bytes())?;
        bytes.extend_from_slice(&self.name())?;
        Ok(bytes)
    }

    /// The trailer of one of `n` pieces that these bytes are.
    pub fn from_bytes(alloc: Global, n: usize, bytes: &[u8]) -> Result<Option<Trailer>, AllocError>
        requires { n ≤ 65536 }
        ensures trailer { IfOk result (λ found. IfSome found (λ t. bytes.now ≡ trailer_bytes t.digests.items t.len)) }
        ensures count { IfOk result (λ found. IfSome found (λ t. length t.digests.items ≡ 32 * n)) }
        ensures none { IfOk result (λ found. IsNone found → (digests : List ℕ) (len : ℕ) → length digests ≡ 32 * n
            → len < 2 ^ 62 → bytes.now ≡ trailer_bytes digests len → ⊥) }
    {
        if bytes.len() != trailer_size(n) {
            return Ok(None);
        }
        let (listed, name) = bytes.split_at(DIGEST * n + 8);
        if !are_same(name, &Sha256::digest(listed)) {
            return Ok(None);
        }
        let (digests, number) = listed.split_at(DIGEST * n);
        let len = number_of(number);
        if len < 1 << 62 {
            Ok(Some(Trailer {
                digests: Vec::from_slice(alloc, digests)?,
                len,
            }))
        } else {
            Ok(None)
        }
    }

    /// The name of the set: the SHA-256 of the digests and the length.
    pub fn name(&self) -> [u8; 32]
        ensures { result ≡ set_name self.now.digests.items self.now.len }
    {
        let mut hasher = Sha256::new();
        hasher.update(&self.digests);
        hasher.update(&self.len.to_le_bytes());
        hasher.finalize()
    }

    /// Whether the other one is of the same set, by the set's name.
    pub fn is_of_set(&self, other: &Trailer) -> bool
        // They have the same digests and length, or else their listings differ and have one digest.
        ensures same { result ≡ true → ((self.now.digests.items ≡ other.now.digests.items)
            × (self.now.len ≡ other.now.len))
            ⊎ Collide (listing self.now.digests.items self.now.len) (listing other.now.digests.items other.now.len) }
        ensures others { result ≡ false → self.now.digests.items ≡ other.now.digests.items
            → self.now.len ≡ other.now.len → ⊥ }
    {
        are_same(&self.name(), &other.name())
    }

    /// The digest of the piece of this number.
    pub fn digest(&self, number: usize) -> &[u8]
        requires { number < 65536 }
        ensures { result.now ≡ chunk 32 number self.entry.now.digests.items }
    {
        chunk(&self.digests, DIGEST, number)
    }
}

// The number that eight bytes spell.
fn number_of(bytes: &[u8]) -> u64
    requires { length bytes.now ≡ 8 }
    ensures { bytes.now ≡ to_le_bytes w64 result }
{
    u64::from_le_bytes([
        bytes[0], bytes[1], bytes[2], bytes[3], bytes[4], bytes[5], bytes[6], bytes[7],
    ])
}
