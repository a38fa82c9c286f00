//! What is known of a file, as its pieces keep it.

ghost use Rattle.std.specs.Prelude.{◌≡◌, ℕ, List, ◌+◌, ◌<◌, ◌≤◌, ◌^◌, ◌↔◌, ◌++◌, length, IfOk, IfSome, IsNone, IsTrue};
ghost use Rattle.std.specs.Int.{w32, w64, to_le_bytes};
ghost use Rattle.shards.specs.Labels.{label_bytes, IsName, IsOnePart, IsLawful};

use std::alloc::{AllocError, Global};

/// How many bytes a label has at most.
pub const LONGEST_LABEL: usize = 65535;

// How many bytes stand before the name.
const BEFORE_NAME: usize = 16;

const NANOSECONDS: u32 = 1_000_000_000;

/// What is known of a file.
#[derive(Debug, Drop)]
pub struct Label {
    /// Its permissions: the low twelve bits of its mode.
    pub permissions: u32,
    /// When it was last changed: seconds since 1970, in two's complement.
    pub seconds: u64,
    /// And nanoseconds after that second.
    pub nanoseconds: u32,
    /// The last part of its path.
    pub name: Vec<u8>,
}

impl Label {
    /// The label's bytes.
    pub fn to_bytes(&self, alloc: Global) -> Result<Vec<u8>, AllocError>
        ensures { IfOk result (λ bytes. bytes.items ≡ label_bytes self.now.permissions self.now.seconds
            self.now.nanoseconds self.now.name.items) }
    {
        let mut bytes = Vec::with_capacity(alloc, BEFORE_NAME)?;
        bytes.extend_from_slice(&self.permissions.to_le_bytes())?;
        bytes.extend_from_slice(&self.seconds.to_le_bytes())?;
        bytes.extend_from_slice(&self.nanoseconds.to_le_bytes())?;
        bytes.extend_from_slice(&self.name)?;
        Ok(bytes)
    }

    /// The label that these bytes are. `None` tells that no file has it.
    pub fn from_bytes(alloc: Global, bytes: &[u8]) -> Result<Option<Label>, AllocError>
        ensures label { IfOk result (λ found. IfSome found (λ label. bytes.now
            ≡ label_bytes label.permissions label.seconds label.nanoseconds label.name.items)) }
        ensures none { IfOk result (λ found. IsNone found → (permissions seconds nanoseconds : ℕ) (name : List ℕ)
            → permissions < 2 ^ 32 → seconds < 2 ^ 64 → IsLawful permissions nanoseconds name
            → bytes.now ≡ label_bytes permissions seconds nanoseconds name → ⊥) }
    {
        if bytes.len() < BEFORE_NAME {
            return Ok(None);
        }
        let (permissions, rest) = take_four(bytes);
        let (seconds, rest) = take_eight(rest);
        let (nanoseconds, name) = take_four(rest);
        if !is_lawful(permissions, nanoseconds, name) {
            return Ok(None);
        }
        Ok(Some(Label {
            permissions,
            seconds,
            nanoseconds,
            name: Vec::from_slice(alloc, name)?,
        }))
    }
}

// The number that the bytes begin with, and what is behind it.
fn take_four(bytes: &[u8]) -> (u32, &[u8])
    requires { 4 ≤ length bytes.now }
    ensures spelled { bytes.entry.now ≡ to_le_bytes w32 result.0 ++ result.1.now }
    ensures len { length bytes.entry.now ≡ 4 + length result.1.now }
{
    let (four, rest) = bytes.split_at(4);
    (
        u32::from_le_bytes([four[0], four[1], four[2], four[3]]),
        rest,
    )
}

// The number of eight bytes that the bytes begin with, and what is behind it.
fn take_eight(bytes: &[u8]) -> (u64, &[u8])
    requires { 8 ≤ length bytes.now }
    ensures spelled { bytes.entry.now ≡ to_le_bytes w64 result.0 ++ result.1.now }
    ensures len { length bytes.entry.now ≡ 8 + length result.1.now }
{
    let (eight, rest) = bytes.split_at(8);
    (
        u64::from_le_bytes([
            eight[0], eight[1], eight[2], eight[3], eight[4], eight[5], eight[6], eight[7],
        ]),
        rest,
    )
}

// Whether a file can have these permissions, nanoseconds and name.
fn is_lawful(permissions: u32, nanoseconds: u32, name: &[u8]) -> bool
    ensures { IsTrue result ↔ IsLawful permissions nanoseconds name.now }
{
    permissions < 4096 && nanoseconds < NANOSECONDS && is_name(name)
}

// Whether these bytes name a file in its folder.
fn is_name(bytes: &[u8]) -> bool
    ensures { IsTrue result ↔ IsName bytes.now }
{
    match bytes {
        [] | [b'.'] | [b'.', b'.'] => false,
        _ => is_one_part(bytes),
    }
}

// Whether these bytes have neither a zero nor a slash.
fn is_one_part(bytes: &[u8]) -> bool
    ensures { IsTrue result ↔ IsOnePart bytes.now }
{
    !bytes.contains(&0) && !bytes.contains(&b'/')
}
