// The number at the cursor: a crisp value, a degree or weight, a rule number; or by what fault it is none.
#![tactic(auto)]

ghost use Rattle.std.specs.Prelude.{◌≡◌, ◌<◌, [], ◌∷◌, ℕ, IfOk, IfErr};
ghost use Rattle.model.specs.Block.{Block};
ghost use Rattle.model.specs.Keywords.{NUMBER};
ghost use Rattle.model.specs.Tokens.{value_of, unit_of, decimal, is_rule_number};
ghost use Rattle.model.specs.Parse.{a_crisp, a_unit, is, text};
ghost use Rattle.cursor.specs.View.{seen, text_of, Fits, fault, number_of};

use cursor::Cursor;
use model::{Crisp, Degree};
use refusals::Fault;

pub fn crisp_here(s: &[u8], c: Cursor) -> Result<Crisp, Fault>
    requires { Fits s.now c }
    ensures checked { (b : Block) (n : ℕ) → number_of result ≡ fault (a_crisp (seen s.now c b n) []) }
    ensures value { IfOk result (λ x. (c.kind ≡ NUMBER) × (x.0 ≡ value_of (text_of s.now c))) }
{
    if c.kind != token_kinds::NUMBER {
        return Err(Fault::WrongToken);
    }
    numerals::crisp(&s[c.start..c.end]).ok_or(Fault::WrongNumber)
}

pub fn unit_here(s: &[u8], c: Cursor) -> Result<Degree, Fault>
    requires { Fits s.now c }
    ensures checked { (b : Block) (n : ℕ) → number_of result ≡ fault (a_unit (seen s.now c b n)) }
    ensures value { IfOk result (λ d. (c.kind ≡ NUMBER) × (d.0 ≡ unit_of (text_of s.now c))) }
{
    if c.kind != token_kinds::NUMBER {
        return Err(Fault::WrongToken);
    }
    numerals::unit(&s[c.start..c.end]).ok_or(Fault::WrongNumber)
}

// The rule number, whether or not another rule has it.
pub fn number_here(s: &[u8], c: Cursor) -> Result<u32, Fault>
    requires { Fits s.now c }
    ensures checked { (b : Block) (n : ℕ)
        → number_of result ≡ fault ((is NUMBER (seen s.now c b n), 2) ∷ (is_rule_number (text (seen s.now c b n)), 3) ∷ []) }
    ensures value { IfOk result (λ m. (c.kind ≡ NUMBER) × (m ≡ decimal (text_of s.now c))) }
{
    if c.kind != token_kinds::NUMBER {
        return Err(Fault::WrongToken);
    }
    numerals::rule_number(&s[c.start..c.end]).ok_or(Fault::WrongNumber)
}
