// Readings as crisp values: the bits of a REAL to its nearest thousandth, an INT times 1000.
#![tactic(auto)]

ghost use Rattle.std.specs.Prelude.{◌≡◌, ◌*◌, ◌-◌, ◌^◌, ◌≤◌, ◌<◌, min, pos, ◌*ℤ◌, IfOk};
ghost use Rattle.model.specs.Bounds.{crisp_limit};
ghost use Rattle.model.specs.Readings.{real_of, taken};
ghost use Rattle.crisp.specs.Crisp.{InCrisp};
ghost use Rattle.readings.specs.Fields.{magnitude_of, significand_of};

use model::{Crisp, InputType, NotTaken, Reading};

// A float's significand, by its fields: below the least exponent the leading bit is 0.
fn significand(e: u64, t: u64) -> u64
    requires { t < 8388608 }
    ensures { (result ≡ significand_of e t) × (result < 16777216) × (0 < e → 8388608 ≤ result) }
{
    if e == 0 { t } else { 8388608 + t }
}

// A float is its significand times 2 to this, over 2 to 149.
fn exponent(e: u64) -> u64
    ensures { result ≡ e - 1 }
{
    e.saturating_sub(1)
}

// The thousandths of q * 2^k / 2^149, at most the crisp limit; a half goes up, and down where `down` is 1.
fn magnitude(down: u64, q: u64, k: u64) -> u64
    requires { (down ≤ 1) × (q < 16777216) × (0 < k → 8388608 ≤ q) }
    ensures { (result ≡ min (magnitude_of down (1000 * (q * 2 ^ k)) (2 ^ 149)) crisp_limit) × (result ≤ 1000000000) }
{
    if k >= 149 {
        return 1_000_000_000;
    }
    let j = 149 - k;
    if j > 40 {
        return 0;
    }
    nearest::nearest_shift(2 * (1000 * q) - down, j).min(1_000_000_000)
}

pub fn real(x: f32) -> Result<Crisp, NotTaken>
    ensures { result ≡ real_of x }
{
    if x != x {
        return Err(NotTaken::NotFinite);
    }
    let b = f32::to_bits(x) as u64;
    let e = b % 2147483648 / 8388608;
    let t = b % 8388608;
    if e == 255 {
        return Err(NotTaken::NotFinite);
    }
    let q = significand(e, t);
    let k = exponent(e);
    let v = magnitude(b / 2147483648, q, k);
    if b < 2147483648 {
        Ok(Crisp(v as i32))
    } else {
        Ok(Crisp(-(v as i32)))
    }
}

fn int(n: i16) -> Crisp
    ensures { (result.0 ≡ n *ℤ pos 1000) × InCrisp result.0 }
{
    Crisp(n as i32 * 1000)
}

pub fn taken(kind: InputType, reading: Reading) -> Result<Crisp, NotTaken>
    ensures { (result ≡ taken kind reading) × IfOk result (λ c. InCrisp c.0) }
{
    match (kind, reading) {
        (_, Reading::Absent) => Err(NotTaken::Absent),
        (InputType::Real, Reading::Real(x)) => real(x),
        (InputType::Int, Reading::Int(n)) => Ok(int(n)),
        (InputType::Real, Reading::Int(_)) => Err(NotTaken::WrongKind),
        (InputType::Int, Reading::Real(_)) => Err(NotTaken::WrongKind),
    }
}
