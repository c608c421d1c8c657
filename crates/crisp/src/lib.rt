// Crisp values as distances above the lowest, which are natural numbers; their order; and a crisp value as a float.
#![tactic(auto)]

ghost use Rattle.std.specs.Prelude.{◌≡◌, ◌≤◌, pos, ◌-ℤ◌};
ghost use Rattle.std.specs.Int.Signed.{lt_z, le_z};
ghost use Rattle.model.specs.Block.{in_range};
ghost use Rattle.model.specs.Ranges.{range_view};
ghost use Rattle.model.specs.Tokens.{in_crisp};
ghost use Rattle.model.specs.Bounds.{crisp_limit};
ghost use Rattle.model.specs.Readings.{float_of};
ghost use Rattle.crisp.specs.Crisp.{InCrisp, above};

use model::{Crisp, Range};

// How far x lies above the lowest crisp value.
pub fn lift(x: Crisp) -> u32
    requires { InCrisp x.0 }
    ensures { (result ≡ above x.0) × (result ≤ 2000000000) }
{
    (x.0 + 1_000_000_000) as u32
}

// The crisp value that lies n above the lowest.
pub fn lower(n: u32) -> Crisp
    requires { n ≤ 2000000000 }
    ensures { (result.0 ≡ pos n -ℤ pos crisp_limit) × InCrisp result.0 }
{
    Crisp(n as i32 - 1_000_000_000)
}

pub fn less(a: Crisp, b: Crisp) -> bool
    ensures { result ≡ lt_z a.0 b.0 }
{
    a < b
}

pub fn not_above(a: Crisp, b: Crisp) -> bool
    ensures { result ≡ le_z a.0 b.0 }
{
    a <= b
}

// In the crisp bounds.
pub fn in_bounds(x: Crisp) -> bool
    ensures { result ≡ in_crisp x.0 }
{
    (-1_000_000_000..=1_000_000_000).contains(&x.0)
}

// In RANGE, where there is one.
pub fn in_range(range: Option<Range>, x: Crisp) -> bool
    ensures { result ≡ in_range (range_view range) x.0 }
{
    match range {
        None => true,
        Some(r) => r.least <= x && x <= r.most,
    }
}

// Thousandths over 1000, rounded once.
pub fn to_float(x: Crisp) -> f64
    ensures { result ≡ float_of x.0 }
{
    x.0 as f64 / 1000.0
}
