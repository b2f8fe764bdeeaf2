//! Marsaglia's 32-bit xorshift, a generator of numbers that anyone can repeat.
#![tactic(auto)]

ghost use Rattle.std.specs.Prelude.{◌≡◌};
ghost use Rattle.xorshift.specs.Xorshift.{next};

/// The number that the generator draws after x.
#[tactic(auto, unfolding(crate::specs::Xorshift::next))]
pub fn next(x: u32) -> u32
    ensures { result ≡ next x }
{
    let a = x ^ (x << 13);
    let b = a ^ (a >> 17);
    b ^ (b << 5)
}
