// The nearest whole number to a fraction, a half toward plus, by shifts and subtractions. All rounding goes through this
// crate, and nothing here divides but by a power of two.
#![tactic(auto)]

ghost use Rattle.std.specs.Prelude.{◌≡◌, ◌*◌, ◌^◌, ◌≤◌, ◌<◌};
ghost use Rattle.model.specs.Degrees.{nearest};

use long_quotient::long_quotient;
use short_quotient::short_quotient;

// Products are often 0, and degrees are at most a million.
pub fn nearest_quotient(a: u64, b: u64) -> u64
    requires { (a < 4611686018427387904) × (0 < b) × (b < 4611686018427387904) }
    ensures { result ≡ nearest a b }
{
    if 2 * a < b {
        return 0;
    }
    if b < 4294967296 && a <= 1_000_000 * b {
        short_quotient(a, b)
    } else {
        long_quotient(a, b)
    }
}

// The same, worked out from k on where it is no less: a shorter quotient.
pub fn nearest_above(a: u64, b: u64, k: u64) -> u64
    requires { (a < 4611686018427387904) × (0 < b) × (b < 4611686018427387904) × (k * b < 4611686018427387904) }
    ensures { result ≡ nearest a b }
{
    let least = k * b;
    if least <= a {
        k + nearest_quotient(a - least, b)
    } else {
        nearest_quotient(a, b)
    }
}

// To a over 2 to the power of j + 1.
pub fn nearest_shift(a: u64, j: u64) -> u64
    requires { (a < 4611686018427387904) × (j ≤ 60) }
    ensures { result ≡ nearest a (2 * 2 ^ j) }
{
    (a + (1u64 << j)) >> (j + 1)
}
