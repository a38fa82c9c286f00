//! What the program prints of protocols: an opening at a point; a secret that any three of five shares give back; both
//! over the scalars of BLS12-381; the sum of two secrets from the sums of their shares; and a sum-check, from a claim on a sum over the cube to a claim
//! on one value: what the verifier says of a true claim and of a false one, of an extension of forty variables that
//! is zero at all corners but three, and whether it accepts one prover's rounds of either claim.

ghost use Rattle.std.specs.Prelude.{◌≡◌, length, IfOk};
ghost use Rattle.ark_sum_check.specs.Provers.{variables_of};

use crate::accepted::is_accepted;
use crate::one_pass_opening::one_pass_opening;
use crate::shared_sum::{SharedSecret, sum_from_shares};
use crate::sharing::shared_and_given_back;
use crate::sum_check_whole::{sum_check_of_entries, sum_check_whole};
use ark_base::{Field, PolyError, PrimeField, PrimeModulus};
use ark_fields::F65537;
use ark_poly::{DenseMultilinearExtension, DenseUVPolynomial, Polynomial};
use ark_prime256::Bls12_381Scalar;
use ark_sharing::{SharingError, share};
use ark_sum_check::{Challenger, Claim, Prover, SparseProver, SumCheckError, Verdict, prove};
use rand::rngs::StdRng;
use rand::{CryptoRng, SeedableRng};
use std::alloc::Global;
use std::io::Print;

/// Prints what each gives.
pub fn print_protocols(rt: &impl Print, alloc: Global) -> anyhow::Result<()> {
    print_opening(rt, alloc)?;
    print_secret(rt, alloc)?;
    print_scalars(rt, alloc)?;
    print_sum_checks(rt, alloc)?;
    print_answers(rt, alloc)
}

fn print_opening(rt: &impl Print, alloc: Global) -> anyhow::Result<()> {
    let coeffs = [1, 2, 3, 4].map(F65537::from);
    let (value, quotient) = one_pass_opening(alloc, &coeffs, F65537::from(5))?;
    let quotient: Vec<u64> = quotient
        .coeffs()
        .iter()
        .map(|coefficient| coefficient.value())
        .collect(alloc)?;
    println!(rt; "the value at 5: {}", value.value())?;
    println!(rt; "the quotient by x - 5: {quotient:?}")?;
    Ok(())
}

fn print_scalars(rt: &impl Print, alloc: Global) -> anyhow::Result<()> {
    let coeffs = [7, 5, 3].map(Bls12_381Scalar::from);
    let (value, _) = one_pass_opening(alloc, &coeffs, Bls12_381Scalar::from(1 << 40))?;
    println!(rt; "the value at 2^40, over scalars of BLS12-381: {value:?}")?;
    let mut rng = StdRng::seed_from_u64(5);
    let points = [1, 2, 3, 4, 5].map(Bls12_381Scalar::from);
    let secret = shared_and_given_back(alloc, value, 3, &points, &mut rng)?;
    println!(rt; "that value from three of five shares: {secret:?}")?;
    Ok(())
}

fn print_secret(rt: &impl Print, alloc: Global) -> anyhow::Result<()> {
    // A seed from the system, as of `rand::make_rng`, takes the place of this one, whose draws anyone can repeat.
    let mut rng = StdRng::seed_from_u64(5);
    let points = [1, 2, 3, 4, 5].map(F65537::from);
    let secret = shared_and_given_back(alloc, F65537::from(1234), 3, &points, &mut rng)?;
    println!(rt; "the secret from three of five shares: {}", secret.value())?;
    let differs = differs_when_drawn_again(alloc, F65537::from(1234), &points, &mut rng)?;
    println!(rt; "drawn again, the first share is another: {differs}")?;
    let sum = sum_from_shares(
        alloc,
        &SharedSecret {
            secret: F65537::from(1234),
            coeffs: &[7, 8].map(F65537::from),
        },
        &SharedSecret {
            secret: F65537::from(4321),
            coeffs: &[9, 10].map(F65537::from),
        },
        &points,
    )?;
    println!(rt;
        "the sum of two secrets from the sums of their shares: {}",
        sum.value()
    )?;
    Ok(())
}

fn print_sum_checks(rt: &impl Print, alloc: Global) -> anyhow::Result<()> {
    let left = [1, 2, 3, 4].map(F65537::from);
    let right = [5, 6, 7, 8].map(F65537::from);
    for claim in [70, 71] {
        let (mut drawn, mut again) = (twenty_and_ten(alloc)?, twenty_and_ten(alloc)?);
        let prover = two_factors(alloc, &left, &right)?;
        let verdict = sum_check_whole(alloc, prover, F65537::from(claim), &mut drawn, &mut again)?;
        print_verdict(rt, claim, verdict)?;
    }
    let (mut drawn, mut again) = (forty_twos(alloc)?, forty_twos(alloc)?);
    let prover = three_entries(alloc)?;
    let verdict = sum_check_of_entries(alloc, prover, F65537::from(23), &mut drawn, &mut again)?;
    print_verdict(rt, 23, verdict)
}

// One proof for a true claim and for a false one, with the product's value at its point.
fn print_answers(rt: &impl Print, alloc: Global) -> anyhow::Result<()> {
    let left = [1, 2, 3, 4].map(F65537::from);
    let right = [5, 6, 7, 8].map(F65537::from);
    let mut drawn = twenty_and_ten(alloc)?;
    let proof = prove(alloc, two_factors(alloc, &left, &right)?, &mut drawn)?;
    let value = value_at(alloc, &left, &proof.point)? * value_at(alloc, &right, &proof.point)?;
    for sum in [70, 71] {
        let claim = Claim {
            num_vars: 2,
            degree: 2,
            sum: F65537::from(sum),
        };
        let mut again = twenty_and_ten(alloc)?;
        let accepted = is_accepted(alloc, claim, &proof, value, &mut again)?;
        println!(rt; "sum {sum} with this value: {accepted}")?;
    }
    Ok(())
}

// The value of a factor of two variables at a point.
fn value_at<F: Field>(alloc: Global, table: &[F; 4], point: &Vec<F>) -> Result<F, PolyError>
    requires { length point.now.items ≡ 2 }
{
    let extension = DenseMultilinearExtension::from_evaluations_vec(
        2,
        Vec::from_slice(alloc, table)?,
    );
    extension.evaluate(alloc, point)
}

fn twenty_and_ten<F: Field>(alloc: Global) -> Result<Drawn<F>, SumCheckError> {
    let mut left = Vec::with_capacity(alloc, 2)?;
    left.push(F::from(20))?;
    left.push(F::from(10))?;
    Ok(Drawn { left })
}

fn forty_twos<F: Field>(alloc: Global) -> Result<Drawn<F>, SumCheckError> {
    Ok(Drawn {
        left: vec![in alloc; F::from(2); 40]?,
    })
}

// Whether two sharings of one secret give the first point different shares, as drawn coefficients do.
fn differs_when_drawn_again<F: Field, R: CryptoRng>(
    alloc: Global,
    secret: F,
    points: &[F],
    rng: &mut R,
) -> Result<bool, SharingError> {
    let first = share(alloc, secret, 3, points, rng)?;
    let second = share(alloc, secret, 3, points, rng)?;
    match (first.first(), second.first()) {
        (Some(one), Some(other)) => Ok(one.1 != other.1),
        _ => Ok(false),
    }
}

// Challenges that were drawn before, the next one last; zero once they are spent.
#[derive(Drop)]
struct Drawn<F> {
    left: Vec<F>,
}

impl<F: Field> Challenger<F> for Drawn<F> {
    fn challenge(&mut self, _values: &[F]) -> F {
        match self.left.pop() {
            Some(challenge) => challenge,
            None => F::zero(),
        }
    }
}

// The prover of two factors of two variables.
fn two_factors<F: Field>(
    alloc: Global,
    left: &[F; 4],
    right: &[F; 4],
) -> Result<Prover<F>, SumCheckError>
    ensures { IfOk result (λ prover. variables_of prover ≡ 2) }
{
    let mut tables = Vec::with_capacity(alloc, 2)?;
    tables.push(Vec::from_slice(alloc, left)?)?;
    tables.push(Vec::from_slice(alloc, right)?)?;
    Ok(Prover::new(2, tables))
}

// The prover of a factor of forty variables by its three entries.
fn three_entries<F: Field>(alloc: Global) -> Result<SparseProver<F>, SumCheckError> {
    let mut entries = Vec::with_capacity(alloc, 3)?;
    entries.push((0, F::from(5)))?;
    entries.push((3, F::from(7)))?;
    entries.push((0x80_0000_0001, F::from(11)))?;
    Ok(SparseProver::new(40, entries))
}

fn print_verdict<M: PrimeModulus>(
    rt: &impl Print,
    claim: u64,
    verdict: Verdict<PrimeField<M>>,
) -> anyhow::Result<()> {
    match verdict {
        Verdict::Reduced(value, _) => println!(rt;
            "sum {claim}: the product's value is {}",
            value.value()
        )?,
        Verdict::Refused(round) => println!(rt; "sum {claim}: round {round} is refused")?,
        Verdict::WrongCount => println!(rt; "sum {claim}: not as many rounds as variables")?,
    }
    Ok(())
}
