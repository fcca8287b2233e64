ghost use Rattle.std.specs.Prelude.{◌≡◌};
ghost use Rattle.link_script.specs.Generator.{number_behind};

/// What the generator multiplies with.
pub const MULTIPLIER: u64 = 6_364_136_223_846_793_005;

/// What it adds then.
pub const INCREMENT: u64 = 1_442_695_040_888_963_407;

/// The number of the generator that follows `x`: a linear congruence modulo 2^64. A seed is any number.
pub fn next_number(x: u64) -> u64
    ensures { result ≡ number_behind x }
{
    x.wrapping_mul(MULTIPLIER).wrapping_add(INCREMENT)
}
