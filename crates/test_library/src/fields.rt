ghost use Rattle.std.specs.Prelude.{◌<◌};

use ark_base::{Field, PrimeField, PrimeField32, PrimeModulus, PrimeModulus32};
use ark_fields::{BabyBear, F5, F65537, Goldilocks, KoalaBear};
use rand_pcg::Pcg64;

// A field whose elements are numbers below a prime.
trait Residues: Field {
    fn number(self) -> u64;
}

impl<M: PrimeModulus> Residues for PrimeField<M> {
    fn number(self) -> u64 {
        self.value()
    }
}

impl<M: PrimeModulus32> Residues for PrimeField32<M> {
    fn number(self) -> u64 {
        self.value() as u64
    }
}

// Draws differ, and none is past the modulus.
#[test]
fn drawn_elements(rt: HostRuntime) {
    let mut rng = Pcg64::new(5, 8);
    let mut seen = [false; 5];
    for _ in 0..200 {
        if let Some(value) = seen.get_mut(F5::rand(&mut rng).value() as usize) {
            *value = true;
        }
        assert!(rt; F65537::rand(&mut rng).value() < 65537);
    }
    assert!(rt; seen == [true; 5]);
}

// Whether the operations on the residues of two numbers are those of 128 bits.
fn agree<F: Residues>(prime: u64, left: u64, right: u64) -> bool
    requires { 0 < prime }
{
    let modulus = prime as u128;
    let (first, second) = (left as u128 % modulus, right as u128 % modulus);
    let (x, y) = (F::from(left), F::from(right));
    (x + y).number() as u128 == (first + second) % modulus
        && (x - y).number() as u128 == (first + (modulus - second)) % modulus
        && (x * y).number() as u128 == first * second % modulus
        && (-x).number() as u128 == (modulus - first) % modulus
}

// Whether sums, differences and products of each two of these numbers agree, and those of so many drawn ones.
fn all_agree<F: Residues>(prime: u64, edges: &[u64], drawn: u64) -> bool
    requires { 0 < prime }
{
    let mut right = true;
    for a in edges {
        for b in edges {
            right = right && agree::<F>(prime, *a, *b);
        }
    }
    let mut rng = Pcg64::new(11, 13);
    for _ in 0..drawn {
        let a = F::rand(&mut rng).number();
        let b = F::rand(&mut rng).number();
        right = right && agree::<F>(prime, a, b);
    }
    right
}

const BABY_BEAR: [u64; 7] = [
    0,
    1,
    2013265920,
    2013265921,
    4294967295,
    4294967296,
    1 << 63,
];

const KOALA_BEAR: [u64; 7] = [
    0,
    1,
    2130706432,
    2130706433,
    4294967295,
    4294967296,
    1 << 63,
];

const GOLDILOCKS: [u64; 9] = [
    0,
    1,
    4294967294,
    4294967295,
    4294967296,
    1 << 63,
    18446744069414584319,
    18446744069414584320,
    18446744073709551615,
];

// Sums and products at the edges of words, and of drawn elements.
#[test]
fn operations_of_128_bits(rt: HostRuntime) {
    assert!(rt; all_agree::<BabyBear>(2013265921, &BABY_BEAR, 10_000));
    assert!(rt; all_agree::<KoalaBear>(2130706433, &KOALA_BEAR, 10_000));
    assert!(rt; all_agree::<Goldilocks>(18446744069414584321, &GOLDILOCKS, 10_000));
}
