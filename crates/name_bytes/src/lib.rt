// The name that bytes start with, wherever they stand.
#![tactic(auto)]

ghost use Rattle.std.specs.Prelude.{◌≡◌, true, false, not, ◌&&◌, ◌≤◌, ◌<◌, eqb, length, take, get_or, IfSome};
ghost use Rattle.model.specs.Basic.{all};
ghost use Rattle.model.specs.Tokens.{is_name_byte, tidy, is_name};
ghost use Rattle.model.specs.Keywords.{is_keyword};
ghost use Rattle.name_bytes.specs.Names.{ends_name, tidy_at, tidy_end, name_length};

// No byte of a name that is tidy so far; under says that an underscore stands before it.
fn ends_name(under: bool, c: u8) -> bool
    ensures { result ≡ ends_name under c }
{
    if c == b'_' {
        under
    } else {
        !c.is_ascii_alphanumeric()
    }
}

// The end of a name, which is no underscore.
fn tidy_at(under: bool, i: usize) -> Option<usize>
    ensures { result ≡ tidy_at under i }
{
    if under { None } else { Some(i) }
}

// Where the name bytes end that s starts with, if they are tidy. Most are letters.
fn tidy_end(s: &[u8]) -> Option<usize>
    ensures value { result ≡ tidy_end false 0 s.now }
    ensures within { IfSome result (λ n. n ≤ length s.now) }
{
    let mut under = false;
    for (i, c) in s.iter().enumerate() {
        if c.is_ascii_alphabetic() {
            under = false;
            continue;
        }
        if ends_name(under, *c) {
            return tidy_at(under, i);
        }
        under = *c == b'_';
    }
    tidy_at(under, s.len())
}

fn is_keyword(w: &[u8]) -> bool
    requires { (0 < length w.now) × (length w.now ≤ 16) }
    ensures { result ≡ is_keyword w.now }
{
    keywords::may_be(w.len(), w[0]) && keywords::keyword_at(w).is_some()
}

// Whether tidy name bytes are a name.
#[tactic(auto, using(crate::proofs::Names::first_starts), unfolding(model::specs::Tokens::is_name))]
fn is_name(w: &[u8]) -> bool
    requires { (all is_name_byte w.now ≡ true) × (tidy w.now ≡ true) }
    ensures { result ≡ is_name w.now }
{
    !w.is_empty() && !w[0].is_ascii_digit() && w.len() <= bounds::NAME && !is_keyword(w)
}

// How many bytes the name has that s starts with; None where its name bytes are no name, as those of a keyword.
pub fn name_length(s: &[u8]) -> Option<usize>
    ensures { result ≡ name_length s.now }
{
    let n = tidy_end(s)?;
    if is_name(&s[..n]) { Some(n) } else { None }
}
