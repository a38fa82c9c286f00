//! Bytes two by two.

ghost use Rattle.std.specs.Prelude.{◌≡◌, ◌≢◌, ℕ, ◌+◌, ◌*◌, ◌<◌, ◌≤◌, ◌^◌, length};
ghost use Rattle.shards_format.specs.Stripes.{item};

/// Item `j` of the bytes: two of them, the low one first. Past their end are zeros.
#[inline]
pub fn item(bytes: &[u8], j: usize) -> u16
    requires { j < 2 ^ 62 }
    ensures { result ≡ item bytes.now j }
{
    let low = bytes.get(2 * j).copied().unwrap_or(0);
    let high = bytes.get(2 * j + 1).copied().unwrap_or(0);
    low as u16 + 256 * high as u16
}

/// Writes item `j`.
#[inline]
pub fn put_item(bytes: &mut [u8], j: usize, value: u16)
    requires { 2 * j + 1 < length bytes.old }
    ensures here { item bytes.new j ≡ value }
    ensures others { (i : ℕ) → i ≢ j → item bytes.new i ≡ item bytes.old i }
{
    bytes[2 * j] = (value % 256) as u8;
    bytes[2 * j + 1] = (value / 256) as u8;
}
