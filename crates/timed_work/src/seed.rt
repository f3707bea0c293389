//! Numbers from a seed.

ghost use Rattle.std.specs.Prelude.{◌≡◌, ◌<◌, ◌%◌};
ghost use Rattle.rand_pcg.specs.Pcg.{pcg32, multiplier_64};
ghost use Rattle.rand_pcg.specs.Lcg.{started, increment_of};

use rand_core::utils::NextWord;
use rand_pcg::Pcg32;

/// The generator that all data is made with. It gives the same numbers at each run.
pub fn seeded() -> Pcg32
    ensures { result ≡ started 64 multiplier_64 20_261_127 (increment_of 64 1) }
{
    Pcg32::new(20_261_127, 1)
}

/// The next number below `bound`: the next word, by its remainder.
pub fn below(numbers: &mut Pcg32, bound: u32) -> u32
    requires { 0 < bound }
    ensures value { result ≡ (pcg32 numbers.old).0 % bound }
    ensures left { numbers.new ≡ (pcg32 numbers.old).1 }
    ensures below { result < bound }
{
    numbers.next_word() % bound
}
