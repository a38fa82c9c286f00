//! Reading the bodies of pieces.

ghost use Rattle.std.specs.Prelude.{◌≡◌, ℕ, ◌+◌, ◌*◌, ◌<◌, ◌≤◌, ◌^◌, [], get_or, length, map, IfOk};
ghost use Rattle.shards_format.specs.Parts.{number_in};
ghost use Rattle.shards_format.specs.Pieces.{chunk, part_size};

use crate::parts::{PART, chunk, read_part};
use crate::piece::part_size;
use std::alloc::{AllocError, Global};

/// The numbers in part `b` of the bodies at these places, of which each has so many there: as many bodies as give the file
/// back.
pub fn numbers_of_parts(
    alloc: Global,
    places: &[usize],
    bodies: &[&[u8]],
    b: usize,
    count: usize,
) -> Result<Vec<u32>, AllocError>
    requires few { count ≤ PART }
    requires places { length places.now ≤ 65536 }
    requires bodies { length bodies.now ≡ length places.now }
    requires part { b < 2 ^ 52 }
    ensures len { IfOk result (λ numbers. length numbers.items ≡ length places.now * count) }
    ensures numbers { let k = length places.now in IfOk result (λ numbers. (a s : ℕ) → a < k → s < count
        → get_or numbers.items (a * count + s) 0 ≡ number_in k (get_or places.now a 0)
        (chunk (part_size k (get_or places.now a 0)) b (get_or (map (λ body. body.now) bodies.now) a [])) s) }
    ensures small { IfOk result (λ numbers. (p : ℕ) → get_or numbers.items p 0 ≤ 65536) }
{
    let mut numbers = vec![in alloc; 0u32; places.len() * count]?;
    read_parts(places, bodies, b, count, numbers.as_mut_slice());
    Ok(numbers)
}

// Reads part `b` of each body.
fn read_parts(places: &[usize], bodies: &[&[u8]], b: usize, count: usize, numbers: &mut [u32])
    requires few { count ≤ PART }
    requires bodies { length bodies.now ≡ length places.now }
    requires part { b < 2 ^ 52 }
    requires len { length numbers.old ≡ length places.now * count }
    ensures numbers { let k = length places.now in (a s : ℕ) → a < k → s < count
        → get_or numbers.new (a * count + s) 0 ≡ number_in k (get_or places.now a 0)
        (chunk (part_size k (get_or places.now a 0)) b (get_or (map (λ body. body.now) bodies.now) a [])) s }
    ensures small { (a s : ℕ) → a < length places.now → s < count → get_or numbers.new (a * count + s) 0 ≤ 65536 }
{
    let k = places.len();
    for a in 0..k {
        let start = a * count;
        let part = chunk(bodies[a], part_size(k, places[a]), b);
        read_part(k, places[a], part, &mut numbers[start..start + count]);
    }
}
