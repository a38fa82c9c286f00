//! A transcript as a challenger.

ghost use Rattle.std.specs.Prelude.{◌≡◌, ◌++◌, ◌∷◌, [], IfOk};
ghost use Rattle.std.specs.Int.{w64, to_le_bytes};
ghost use Rattle.ark_bytes.specs.declared.compress.Compress.{Compress};
ghost use Rattle.ark_transcript.specs.Calls.{Absorbed};
ghost use Rattle.ark_transcript.specs.Challenges.{IsChallenge};
ghost use Rattle.ark_fiat_shamir.specs.Derived.{after_claim, after_values, challenge_label};

use ark_sum_check::{Challenger, Claim};
use ark_traits::Field;
use ark_transcript::{Transcript, element_buffer};
use std::alloc::{AllocError, Global};
use std::marker::{Model, PhantomData};

// The labels of what is absorbed and asked for.
const VARIABLES: [u8; 9] = *b"variables";

const DEGREE: [u8; 6] = *b"degree";

const SUM: [u8; 3] = *b"sum";

const VALUE: [u8; 5] = *b"value";

const CHALLENGE: [u8; 9] = *b"challenge";

/// A transcript that gives a challenge after each round: it absorbs the round's values, each under the label
/// `value`, and then an element is asked for, under the label `challenge`. So a challenge follows from all
/// calls before, the round's values, and nothing else.
///
/// Contracts see the transcript's calls.
#[derive(Drop)]
pub struct TranscriptChallenger<F: Field> {
    transcript: Transcript,
    alloc: Global,
    buffer: Vec<u8>,
    of: PhantomData<F>,
}

impl<F: Field> Model for TranscriptChallenger<F> {
    ghost use Rattle.std.specs.Prelude.{◌≡◌, ◌<◌, ◌^◌, List, length};
    ghost use Rattle.ark_transcript.specs.Calls.{Call};

    ghost Value = { List Call };

    ghost view = { λ c. c.transcript };

    ghost invariant = { λ c. (length c.buffer.items ≡ F.element_size) × (F.element_size < 2 ^ 64) };
}

impl<F: Field> TranscriptChallenger<F> {
    /// The challenger of this transcript. Takes memory for the bytes of an element, and for no challenge
    /// after that.
    pub fn new(alloc: Global, transcript: Transcript) -> Result<Self, AllocError>
        ensures { IfOk result (λ challenger. challenger ≡ transcript) }
    {
        let buffer = element_buffer::<F>(alloc)?;
        Ok(TranscriptChallenger {
            transcript,
            alloc,
            buffer,
            of: PhantomData,
        })
    }

    /// The challenger for the rounds of a claim: that of a clone of the transcript, which has absorbed the
    /// claim. The transcript is as it was.
    pub fn of_claim(
        alloc: Global,
        claim: &Claim<F>,
        transcript: &Transcript,
    ) -> Result<Self, AllocError>
        ensures { IfOk result (λ challenger.
            challenger ≡ after_claim (F.format Compress.Yes) claim.now transcript.now) }
    {
        let mut challenger = TranscriptChallenger::new(alloc, transcript.clone()?)?;
        challenger.absorb_claim(claim);
        Ok(challenger)
    }

    /// Absorbs a claim: the number of variables, the degree and the sum, under the labels `variables`,
    /// `degree` and `sum`. So all challenges after it depend on it.
    pub fn absorb_claim(&mut self, claim: &Claim<F>)
        ensures { self.new ≡ after_claim (F.format Compress.Yes) claim.now self.old }
    {
        self.absorb_number(&VARIABLES, claim.num_vars);
        self.absorb_number(&DEGREE, claim.degree);
        self.absorb_element(&SUM, &claim.sum);
    }

    /// The transcript, with all that was absorbed and asked for.
    pub fn into_transcript(self) -> Transcript
        ensures { result ≡ self }
    {
        self.transcript
    }

    fn absorb_number(&mut self, label: &[u8], number: usize)
        ensures { self.new ≡ self.old ++ Absorbed label.now (to_le_bytes w64 number) ∷ [] }
    {
        self.transcript
            .absorb_bytes(label, &(number as u64).to_le_bytes());
    }

    fn absorb_element(&mut self, label: &[u8], element: &F)
        ensures { self.new ≡ self.old ++ Absorbed label.now ((F.format Compress.Yes).spelling element.now) ∷ [] }
    {
        match self.transcript.absorb(label, element) {
            Ok(()) => {}
            Err(_) => unreachable!(),
        }
    }

    fn absorb_values(&mut self, values: &[F])
        ensures { self.new ≡ after_values (F.format Compress.Yes) values.now self.old }
    {
        for value in values {
            self.absorb_element(&VALUE, value);
        }
    }

    fn ask(&mut self) -> F
        ensures { IsChallenge F.field (F.format Compress.Yes) F.element_size challenge_label 4096
            self.old result self.new }
    {
        self.transcript
            .challenge_in(self.alloc, &CHALLENGE, &mut self.buffer)
    }
}

impl<F: Field> Challenger<F> for TranscriptChallenger<F> {
    ghost use Rattle.ark_bytes.specs.declared.compress.Compress.{Compress};
    ghost use Rattle.ark_fiat_shamir.specs.Derived.{IsRoundChallenge};

    ghost challenge_gives = { IsRoundChallenge F.field (F.format Compress.Yes) F.element_size };

    fn challenge(&mut self, values: &[F]) -> F {
        self.absorb_values(values);
        self.ask()
    }
}
