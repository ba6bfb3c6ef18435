//! The numbers that a soak draws.

ghost use Rattle.std.specs.Prelude.{◌≡◌, ◌/◌, ◌%◌, ◌^◌, ◌<◌};
ghost use Rattle.gr_soak.specs.Text.{stirred};

/// What the state is multiplied by at a draw.
const MULTIPLIER: u64 = 6_364_136_223_846_793_005;

/// What is added then.
const INCREMENT: u64 = 1_442_695_040_888_963_407;

/// The state after a draw.
fn stirred(x: u64) -> u64
    ensures { result ≡ stirred x }
{
    x.wrapping_mul(MULTIPLIER).wrapping_add(INCREMENT)
}

/// Draws a number below `k`.
pub(crate) fn draw(x: &mut u64, k: u64) -> u64
    requires { 0 < k }
    ensures state { x.new ≡ stirred x.old }
    ensures value { result ≡ (stirred x.old / 2 ^ 33) % k }
    ensures below { result < k }
{
    *x = stirred(*x);
    (*x >> 33) % k
}
