// Nearest quotients of at most a million, one bit a turn and no branch.
#![tactic(auto)]

ghost use Rattle.std.specs.Prelude.{◌≡◌, ◌+◌, ◌*◌, ◌/◌, ◌%◌, ◌<◌, ◌≤◌};
ghost use Rattle.model.specs.Degrees.{nearest};

// A quotient of ten bits, one a turn. r has it in its lowest ten bits, and what is left of a above them: d is b there,
// less 1, so that taking d away also counts. The difference's sign decides, so no turn needs a branch.
fn ten_bits(a: u64, b: u64) -> u64
    requires { (a < b * 1024) × (b < 8796093022208) }
    ensures { (result % 1024 * b + result / 1024 ≡ a) × (result / 1024 < b) }
{
    let d = 1024 * b - 1;
    let mut r = 1024 * a;
    for k in (0..10u32).rev() {
        let t = r.wrapping_sub(d << k);
        if t < 9223372036854775808 {
            r = t;
        }
    }
    r
}

// Of at most a million: 2a + b over 2b, rounded down, in twice ten bits.
pub fn short_quotient(a: u64, b: u64) -> u64
    requires { (0 < b) × (b < 4294967296) × (a ≤ 1000000 * b) }
    ensures { result ≡ nearest a b }
{
    let high = ten_bits(2 * a + b, 2048 * b);
    let low = ten_bits(high / 1024, 2 * b);
    high % 1024 * 1024 + low % 1024
}
