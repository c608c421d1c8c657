// The bytes of a stored name, and where they end.
#![tactic(auto)]

ghost use Rattle.std.specs.Prelude.{◌≡◌, not, ◌≤◌, eqb, length};
ghost use Rattle.std.specs.List.{position};
ghost use Rattle.model.specs.Basic.{run, tab};
ghost use Rattle.model.specs.Image.{word_at, bytes_of};

// The bytes of the four words from place o on.
pub fn bytes_at(img: &[u8], o: usize) -> [u8; bounds::NAME]
    requires { o ≤ 900000000000 }
    ensures { result ≡ bytes_of (tab (word_at img.now) 4 o) }
{
    let mut s = [0; bounds::NAME];
    for k in 0..bounds::NAME {
        s[k] = words::byte(img, o * 4 + k);
    }
    s
}

fn zero_at(s: &[u8]) -> Option<usize>
    ensures { result ≡ position (λ c. eqb c 0) s.now }
{
    s.iter().position(|b| *b == 0)
}

// Where the first zero stands, or the end.
#[tactic(auto, using(crate::proofs::Names::run_until))]
pub fn first_zero(s: &[u8]) -> usize
    ensures value { result ≡ run (λ c. not (eqb c 0)) s.now }
    ensures within { result ≤ length s.now }
{
    zero_at(s).unwrap_or(s.len())
}
