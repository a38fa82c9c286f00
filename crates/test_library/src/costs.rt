//! What transforms cost, as numbers, by the definition.
//!
//! Over a domain of radix 2 a list of at most a quarter of the elements is transformed by as many levels as its own
//! length takes; each other list, and every list of values, by all levels. A level has a butterfly for each two
//! elements. Over a mixed domain there is such a level for each factor of two, and for each factor of three a level
//! with a step of eight products for each three elements.

ghost use Rattle.std.specs.Prelude.{ℕ};
ghost use Rattle.ark_math.specs.Root.{Adicity, IsAdicity};
ghost use Rattle.ark_math.specs.Domain.{radix2, mixed_radix};
ghost use Rattle.ark_math.specs.Cost.{Direction, forward, inverse};
ghost use Rattle.test_library.specs.Costs.{Costs, sizes_433, sizes_4};

/// What the definition says of domains of radix 2, over every field.
pub fn costs_of_radix2()
    ensures one { (s : Adicity) → IsAdicity s → Costs s radix2 1 2 forward 0 0 }
    ensures one_back { (s : Adicity) → IsAdicity s → Costs s radix2 1 1 inverse 0 0 }
    ensures four_of_none { (s : Adicity) → IsAdicity s → Costs s radix2 4 0 forward 0 0 }
    ensures four_of_one { (s : Adicity) → IsAdicity s → Costs s radix2 4 1 forward 0 0 }
    ensures four { (s : Adicity) → IsAdicity s → Costs s radix2 4 4 forward 4 0 }
    ensures four_of_many { (s : Adicity) → IsAdicity s → Costs s radix2 4 70000 forward 4 0 }
    ensures four_back { (s : Adicity) → IsAdicity s → Costs s radix2 4 4 inverse 4 0 }
    ensures eight_of_none { (s : Adicity) → IsAdicity s → Costs s radix2 8 0 forward 0 0 }
    ensures eight_of_two { (s : Adicity) → IsAdicity s → Costs s radix2 8 2 forward 4 0 }
    ensures sixteen_of_four { (s : Adicity) → IsAdicity s → Costs s radix2 16 4 forward 16 0 }
    ensures sixteen_of_five { (s : Adicity) → IsAdicity s → Costs s radix2 16 5 forward 32 0 }
    ensures sixteen { (s : Adicity) → IsAdicity s → Costs s radix2 16 16 forward 32 0 }
    ensures sixteen_back { (s : Adicity) → IsAdicity s → (len : ℕ) → Costs s radix2 16 len inverse 32 0 }
{}

/// What it says of mixed domains, over the fields of 433 and of four elements, whatever the list and the direction.
pub fn costs_of_mixed_radix()
    ensures six { (len : ℕ) (way : Direction) → Costs sizes_433 mixed_radix 6 len way 3 2 }
    ensures twelve { (len : ℕ) (way : Direction) → Costs sizes_433 mixed_radix 12 len way 12 4 }
    ensures eighteen { (len : ℕ) (way : Direction) → Costs sizes_433 mixed_radix 18 len way 9 12 }
    ensures twenty_seven { (len : ℕ) (way : Direction) → Costs sizes_433 mixed_radix 27 len way 0 27 }
    ensures three { (len : ℕ) (way : Direction) → Costs sizes_4 mixed_radix 3 len way 0 1 }
{}
