// The classes of bytes, and where a run of digits or of name bytes ends.
#![tactic(auto)]

ghost use Rattle.std.specs.Prelude.{◌≡◌, ◌&&◌, not, ◌+◌, ◌≤◌, length, drop, eqb};
ghost use Rattle.model.specs.Basic.{between, run, capital};
ghost use Rattle.model.specs.Tokens.{is_blank, is_digit, is_underscore, starts_name, is_name_byte, is_sign, is_mark, starts};

// Most bytes are above all four.
pub fn is_blank(b: u8) -> bool
    ensures { result ≡ is_blank b }
{
    b <= b' ' && matches!(b, b' ' | b'\t' | b'\r' | b'\n')
}

pub fn is_digit(b: u8) -> bool
    ensures { result ≡ is_digit b }
{
    b.is_ascii_digit()
}

pub fn starts_name(b: u8) -> bool
    ensures { result ≡ starts_name b }
{
    b.is_ascii_alphabetic() || b == b'_'
}

fn is_name_byte(b: u8) -> bool
    ensures { result ≡ is_name_byte b }
{
    starts_name(b) || is_digit(b)
}

// A name byte that is no underscore. Most are small letters.
pub fn is_plain(b: u8) -> bool
    ensures { result ≡ is_name_byte b && not (is_underscore b) }
{
    b.is_ascii_lowercase() || b.is_ascii_uppercase() || b.is_ascii_digit()
}

pub fn is_sign(b: u8) -> bool
    ensures { result ≡ is_sign b }
{
    matches!(b, b'+' | b'-')
}

pub fn is_mark(b: u8) -> bool
    ensures { result ≡ is_mark b }
{
    matches!(b, b'(' | b')' | b',' | b':' | b';')
}

// The same byte but for case. Such letters share their five low bits, so that most others are told apart at once.
pub fn is_alike(a: u8, b: u8) -> bool
    ensures { result ≡ eqb (capital a) (capital b) }
{
    a == b || (a % 32 == b % 32 && a.eq_ignore_ascii_case(&b))
}

// Where the name bytes from a place on end.
#[tactic(auto, using(crate::proofs::Laws::run_more, crate::proofs::Laws::run_stop, crate::proofs::Laws::run_end))]
pub fn name_end(s: &[u8], from: usize) -> usize
    requires { from ≤ length s.now }
    ensures value { result ≡ from + run is_name_byte (drop from s.now) }
    ensures within { (from ≤ result) × (result ≤ length s.now) }
{
    for i in from..s.len() {
        if !is_name_byte(s[i]) {
            return i;
        }
    }
    s.len()
}

// Where the digits from a place on end.
#[tactic(auto, using(crate::proofs::Laws::run_more, crate::proofs::Laws::run_stop, crate::proofs::Laws::run_end))]
pub fn digits_end(s: &[u8], from: usize) -> usize
    requires { from ≤ length s.now }
    ensures value { result ≡ from + run is_digit (drop from s.now) }
    ensures within { (from ≤ result) × (result ≤ length s.now) }
{
    for i in from..s.len() {
        if !is_digit(s[i]) {
            return i;
        }
    }
    s.len()
}

pub fn digit_at(s: &[u8], i: usize) -> bool
    ensures { result ≡ starts is_digit (drop i s.now) }
{
    s.get(i).is_some_and(|b| is_digit(*b))
}
