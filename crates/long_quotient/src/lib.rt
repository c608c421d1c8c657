// Nearest quotients of any length, each turn by the largest shift.
#![tactic(auto)]

ghost use Rattle.std.specs.Prelude.{◌≡◌, ◌+◌, ◌*◌, ◌^◌, ◌≤◌, ◌<◌};
ghost use Rattle.model.specs.Degrees.{nearest};

// The largest shift by which b is at most r.
fn shift_below(b: u64, r: u64) -> u32
    requires { (0 < b) × (b ≤ r) × (r < 4611686018427387904) }
    ensures result_bound { (b * 2 ^ result ≤ r) × (r < b * 2 ^ (result + 1)) }
    ensures small { result < 64 }
{
    let k = b.leading_zeros() - r.leading_zeros();
    if b << k <= r { k } else { k - 1 }
}

// Of any length. Each turn takes the largest shift of b from what is left.
pub fn long_quotient(a: u64, b: u64) -> u64
    requires { (a < 4611686018427387904) × (0 < b) × (b < 4611686018427387904) }
    ensures { result ≡ nearest a b }
{
    let mut q = 0u64;
    let mut r = a;
    while b <= r {
        let k = shift_below(b, r);
        r -= b << k;
        q += 1u64 << k;
    }
    if b <= 2 * r { q + 1 } else { q }
}
