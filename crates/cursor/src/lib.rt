// Where reading stands: the current token, or the refusal that ended it. A refused reading stands at an end, so that no
// later step finds what it asks for, and only the first refusal is kept.
#![tactic(auto)]

ghost use Rattle.std.specs.Prelude.{◌≡◌, None, OnOk, List, [], ℕ, ◌≤◌, ◌<◌};
ghost use Rattle.model.specs.Block.{Block};
ghost use Rattle.model.specs.Keywords.{NAME, END};
ghost use Rattle.model.specs.Parse.{refuse as refused, advance as advanced, expect as expected, a_name};
ghost use Rattle.model.specs.Tokens.{tokens};
ghost use Rattle.refusals.specs.Faults.{number};
ghost use Rattle.cursor.specs.View.{seen, Fits, left, Step, Moves, fault, number_of, refused_at, name_fault};

mod refusal;

pub use refusal::Refused;
use refusals::Fault;

// Where the current token starts and ends, its kind, the refusal, and its place, 0 before one. The numbers of a byte stand
// together and last: a padding is copied in pieces, and pieces that were written apart are read together slowly.
#[derive(Clone, Copy)]
pub struct Cursor {
    pub start: usize,
    pub end: usize,
    pub place: usize,
    pub refused: Option<Refused>,
    pub kind: u8,
}

// At the first token.
pub fn begin(s: &[u8]) -> Cursor
    ensures n_value { (b : Block) (n : ℕ)
        → seen s.now result b n
        ≡ record { rest = tokens s.now; why = 0; place = 0; block = b; words = n } }
    ensures fits { Fits s.now result }
{
    let t = tokens::next(s);
    Cursor {
        kind: t.kind,
        start: t.start,
        end: t.end,
        place: 0,
        refused: None,
    }
}

pub fn refuse(c: Cursor, why: u8) -> Cursor
    requires { 0 < why }
    ensures by_index { (s : List ℕ) → Fits s c → Step (refused why) s c result }
    ensures moves { (s : List ℕ) → Fits s c → Moves s c result }
    ensures halted { result.refused ≡ None → ⊥ }
    ensures exact { result ≡ refused_at c why }
{
    if c.refused.is_some() {
        return c;
    }
    Cursor {
        kind: token_kinds::END,
        start: 0,
        end: 0,
        place: c.start,
        refused: Some(Refused { why }),
    }
}

pub fn refuse_for(c: Cursor, fault: Fault) -> Cursor
    ensures by_index { (s : List ℕ) → Fits s c → Step (refused (number fault)) s c result }
    ensures moves { (s : List ℕ) → Fits s c → Moves s c result }
    ensures halted { result.refused ≡ None → ⊥ }
    ensures exact { result ≡ refused_at c (number fault) }
{
    refuse(c, fault.number())
}

pub fn advance(s: &[u8], c: Cursor) -> Cursor
    requires { Fits s.now c × (c.kind ≡ END → ⊥) }
    ensures step { Step advanced s.now c result }
    ensures moves { (left s.now result < left s.now c) × (result.refused ≡ None) }
{
    let at = c.end;
    let t = tokens::next(&s[at..]);
    Cursor {
        kind: t.kind,
        start: at + t.start,
        end: at + t.end,
        ..c
    }
}

pub fn expect(s: &[u8], c: Cursor, k: u8) -> Cursor
    requires { Fits s.now c × (0 < k) }
    ensures step { Step (expected k) s.now c result }
    ensures moves { Moves s.now c result }
{
    if c.kind == k {
        return advance(s, c);
    }
    refuse_for(c, Fault::WrongToken)
}

// By what fault the current token is refused as a name, if it is none.
pub fn name_fault(c: Cursor) -> Result<(), Fault>
    requires { c.start ≤ c.end }
    ensures by_index { (s : List ℕ) → Fits s c → (b : Block) (n : ℕ) → number_of result ≡ fault (a_name (seen s c b n) []) }
    ensures kind { OnOk result (c.kind ≡ NAME) }
    ensures exact { number_of result ≡ name_fault c }
{
    if c.kind != token_kinds::NAME {
        return Err(Fault::WrongToken);
    }
    if bounds::NAME < c.end - c.start {
        return Err(Fault::WrongName);
    }
    Ok(())
}
