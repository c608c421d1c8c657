// Numbers by their text: crisp values, degrees and weights, rule numbers. Any bytes are taken.
#![tactic(auto)]

ghost use Rattle.std.specs.Prelude.{◌≡◌, ◌&&◌, true, false, ◌-◌, ◌≤◌, eqb, leb, length, MatchOption, IfSome};
ghost use Rattle.model.specs.Bounds.{crisp_limit};
ghost use Rattle.model.specs.Tokens.{starts, unsigned, decimal, magnitude, digits_fit, is_crisp, value_of, is_unit, unit_of, is_rule_number};
ghost use Rattle.numerals.specs.Written.{unit_limit, thousandths_of};

use model::{Crisp, Degree};

const MOST_CRISP: u64 = bounds::CRISP as u64;

const MOST_RULE_NUMBER: u64 = bounds::RULE_NUMBER as u64;

// What a byte counts for as a digit; below '0', nothing.
fn digit(c: u8) -> u64
    ensures { (result ≡ c - 48) × (result ≤ 207) }
{
    u64::from(c.saturating_sub(b'0'))
}

fn is_negative(w: &[u8]) -> bool
    ensures { result ≡ starts (eqb 45) w.now }
{
    matches!(w, [b'-', ..])
}

fn unsigned(w: &[u8]) -> &[u8]
    ensures { result.now ≡ unsigned w.now }
{
    match w {
        [c, rest @ ..] if characters::is_sign(*c) => rest,
        _ => w,
    }
}

// Digits, at most 7, as a decimal number.
fn decimal(w: &[u8]) -> u64
    requires { length w.now ≤ 7 }
    ensures { (result ≡ decimal w.now) × (result ≤ 229999977) }
{
    let mut n: u64 = 0;
    for c in w {
        n = n * 10 + digit(*c);
    }
    n
}

// Digits, at most 3, as those behind a point.
#[tactic(auto, using(crate::proofs::Digits::one_digit, crate::proofs::Digits::two_digits, crate::proofs::Digits::other_digits))]
fn thousandths(w: &[u8]) -> u64
    requires { length w.now ≤ 3 }
    ensures { (result ≡ thousandths_of w.now) × (result ≤ 22999997700) }
{
    let n = decimal(w);
    match w.len() {
        1 => n * 100,
        2 => n * 10,
        _ => n,
    }
}

// The number without its sign, in thousandths, where it has few enough digits and is at most `most`.
fn magnitude(w: &[u8], most: u64) -> Option<u64>
    ensures { MatchOption result (digits_fit w.now && leb (magnitude w.now) most ≡ false)
        (λ n. (digits_fit w.now ≡ true) × (n ≡ magnitude w.now) × (n ≤ most)) }
{
    let w = unsigned(w);
    let point = characters::digits_end(w, 0);
    let whole = &w[..point];
    let fraction = &w[w.len().min(point + 1)..];
    if bounds::DIGITS < whole.len() || bounds::FRACTION < fraction.len() {
        return None;
    }
    let n = decimal(whole) * 1000 + thousandths(fraction);
    if n <= most { Some(n) } else { None }
}

// The crisp value that a text is.
pub fn crisp(w: &[u8]) -> Option<Crisp>
    ensures { MatchOption result (is_crisp w.now ≡ false) (λ x. (is_crisp w.now ≡ true) × (x.0 ≡ value_of w.now)) }
{
    let n = magnitude(w, MOST_CRISP)? as i32;
    Some(Crisp(if is_negative(w) { -n } else { n }))
}

// The most thousandths of a degree or a weight: with a minus only 0.
fn unit_limit(w: &[u8]) -> u64
    ensures { (result ≡ unit_limit w.now) × (result ≤ 1000) }
{
    if is_negative(w) { 0 } else { 1000 }
}

// The degree or weight that a text is.
pub fn unit(w: &[u8]) -> Option<Degree>
    ensures { MatchOption result (is_unit w.now ≡ false) (λ d. (is_unit w.now ≡ true) × (d.0 ≡ unit_of w.now)) }
{
    let n = magnitude(w, unit_limit(w))?;
    Some(Degree(n as u32 * 1000))
}

// The rule number that a text is.
pub fn rule_number(w: &[u8]) -> Option<u32>
    ensures value { MatchOption result (is_rule_number w.now ≡ false)
        (λ n. (is_rule_number w.now ≡ true) × (n ≡ decimal w.now)) }
    ensures within { IfSome result (λ n. n ≤ 65535) }
{
    if bounds::DIGITS < w.len() || characters::digits_end(w, 0) < w.len() {
        return None;
    }
    let n = decimal(w);
    if (1..=MOST_RULE_NUMBER).contains(&n) {
        Some(n as u32)
    } else {
        None
    }
}
