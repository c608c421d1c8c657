// Lookup of a name: the names declared so far are places in the text, and are compared with it there.
#![tactic(auto)]

ghost use Rattle.std.specs.Prelude.{◌≡◌, ◌+◌, ◌≤◌, length};
ghost use Rattle.std.proofs.Math.Seq.{slice};
ghost use Rattle.model.specs.Bounds.{symbol_limit};
ghost use Rattle.model.specs.Tokens.{same_name};
ghost use Rattle.lookup.specs.Names.{Placed, Found};

// Names as places in the text: name k starts at place k of them and ends at place ENDS + k. Name v is that of variable
// v, inputs first; then come those of the terms, TERMS of them for each variable.
pub type Names = [usize; ENDS + bounds::NAMES];

pub const ENDS: usize = bounds::NAMES;

pub const FIRST_OUTPUT: usize = bounds::INPUTS;

pub const FIRST_TERM: usize = bounds::VARIABLES;

pub const FIRST_OUTPUT_TERM: usize = FIRST_TERM + bounds::INPUT_TERMS;

// Whether two texts of one length are the same name. Names of one kind differ towards their end.
#[tactic(auto, using(crate::proofs::Names::no_more, crate::proofs::Names::one_more, crate::proofs::Names::differ_at))]
fn is_same(v: &[u8], w: &[u8]) -> bool
    requires { length v.now ≡ length w.now }
    ensures { result ≡ same_name v.now w.now }
{
    for i in (0..v.len()).rev() {
        if !characters::is_alike(v[i], w[i]) {
            return false;
        }
    }
    true
}

// Which of `count` names, the first being the name `from`, is the text from `start` to `end`.
pub fn find(
    s: &[u8],
    names: &Names,
    from: usize,
    count: usize,
    start: usize,
    end: usize,
) -> Option<usize>
    requires { (start ≤ end) × (end ≤ length s.now) × (from + count ≤ symbol_limit) × Placed s.now names.now }
    ensures { Found s.now names.now (slice start end s.now) count from result }
{
    let w = &s[start..end];
    for i in 0..count {
        let k = from + i;
        let v = &s[names[k]..names[ENDS + k]];
        if v.len() == w.len() && is_same(w, v) {
            return Some(i);
        }
    }
    None
}
