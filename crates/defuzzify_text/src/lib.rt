// DEFUZZIFY parts: an optional RANGE, the terms with one number each, the method and the default.
#![tactic(auto)]

ghost use Rattle.std.specs.Prelude.{OnOk, ◌≡◌, List, ℕ, ◌+◌, ◌*◌, ◌≤◌, ◌<◌, length, IfOk, IfErr};
ghost use Rattle.std.proofs.Math.Seq.{slice};
ghost use Rattle.model.specs.Bounds.{output_limit, term_limit, output_term_limit};
ghost use Rattle.model.specs.Block.{Block, in_range, with_singleton, with_default};
ghost use Rattle.model.specs.Keywords.{TERM, DEFUZZIFY, NAME, NUMBER};
ghost use Rattle.model.specs.Parse.{repeated};
ghost use Rattle.model.specs.Tokens.{value_of};
ghost use Rattle.model.specs.Declarations.{upper_end, range_body, range_part, figure, singleton_body, output_term, default_value, defuzzify_variable, defuzzify};
ghost use Rattle.cursor.specs.View.{seen, text_of, Fits, Step, Moves, fault, number_of};
ghost use Rattle.lookup.specs.Names.{Placed};
ghost use Rattle.block_tables.specs.View.{range_view};
ghost use Rattle.parse_state.specs.Beside.{Ready, Collects};
ghost use Rattle.defuzzify_text.specs.Output.{with_outputs, HasSingletons, Adds, figure_checks, term_checks, method_text, part_text};

use block_tables::{Output, Singleton};
use cursor::Cursor;
use lookup::Names;
use model::{Crisp, Range};
use refusals::Fault;

// A reading among outputs: what DEFUZZIFY changes of the tables, beside their names.
#[derive(Clone, Copy)]
pub struct Outputs {
    pub cursor: Cursor,
    pub count: usize,
    pub rows: [Output; bounds::OUTPUTS],
    pub singletons: [Singleton; bounds::OUTPUT_TERMS],
}

// The cursor behind a term, and the term where it is read as far as its number.
#[derive(Clone, Copy)]
struct SingletonRead {
    cursor: Cursor,
    term: Option<Singleton>,
}

// The upper end of the RANGE of output o, above its lower end x.
fn upper_end(s: &[u8], p: Outputs, o: usize, x: Crisp) -> Outputs
    requires { ((names : List ℕ) × Ready s.now (with_outputs names p)) × (o < p.count) }
    ensures by_index { (names : List ℕ) → Collects (upper_end o x.0) s.now
        (with_outputs names p) (with_outputs names result) }
    ensures count { result.count ≡ p.count }
{
    let c = p.cursor;
    match number_tokens::crisp_here(s, c) {
        Err(fault) => Outputs {
            cursor: cursor::refuse_for(c, fault),
            ..p
        },
        Ok(y) if crisp::less(x, y) => {
            let mut r = p;
            r.rows[o] = Output {
                ranged: true,
                least: x,
                most: y,
                ..p.rows[o]
            };
            r.cursor = cursor::advance(s, c);
            r
        }
        Ok(_) => Outputs {
            cursor: cursor::refuse_for(c, Fault::WrongPosition),
            ..p
        },
    }
}

// min..max); of output o
fn range_from(s: &[u8], p: Outputs, o: usize) -> Outputs
    requires { ((names : List ℕ) × Ready s.now (with_outputs names p)) × (o < p.count) }
    ensures by_index { (names : List ℕ) → Collects (range_body o) s.now
        (with_outputs names p) (with_outputs names result) }
    ensures count { result.count ≡ p.count }
{
    let c = p.cursor;
    let x = match number_tokens::crisp_here(s, c) {
        Ok(x) => x,
        Err(fault) => {
            return Outputs {
                cursor: cursor::refuse_for(c, fault),
                ..p
            };
        }
    };
    let d = cursor::advance(s, c);
    let e = cursor::expect(s, d, token_kinds::DOTS);
    let mut r = upper_end(s, Outputs { cursor: e, ..p }, o, x);
    let g = cursor::expect(s, r.cursor, token_kinds::CLOSE);
    r.cursor = cursor::expect(s, g, token_kinds::SEMICOLON);
    r
}

fn optional_range(s: &[u8], p: Outputs, o: usize) -> Outputs
    requires { ((names : List ℕ) × Ready s.now (with_outputs names p)) × (o < p.count) }
    ensures by_index { (names : List ℕ) → Collects (range_part o) s.now
        (with_outputs names p) (with_outputs names result) }
    ensures count { result.count ≡ p.count }
{
    if p.cursor.kind != token_kinds::RANGE {
        return p;
    }
    let d = cursor::advance(s, p.cursor);
    let e = cursor::expect(s, d, token_kinds::OPEN);
    range_from(s, Outputs { cursor: e, ..p }, o)
}

// Whether x lies in the RANGE of v, if it has one.
fn inside(v: Output, x: Crisp) -> bool
    ensures { result ≡ in_range (range_view v) x.0 }
{
    let range = if v.ranged {
        Some(Range {
            least: v.least,
            most: v.most,
        })
    } else {
        None
    };
    crisp::in_range(range, x)
}

// The number at the cursor as one inside the RANGE of v.
fn figure_here(s: &[u8], c: Cursor, v: Output) -> Result<Crisp, Fault>
    requires { Fits s.now c }
    ensures checked { (b : Block) (n : ℕ) → number_of result ≡ fault (figure_checks (range_view v) (seen s.now c b n)) }
    ensures value { IfOk result (λ x. (c.kind ≡ NUMBER) × (x.0 ≡ value_of (text_of s.now c))) }
{
    let x = number_tokens::crisp_here(s, c)?;
    if inside(v, x) {
        Ok(x)
    } else {
        Err(Fault::WrongPosition)
    }
}

// A number as the singleton of an output with the row v, by the name from start to end.
fn singleton_at(s: &[u8], c: Cursor, v: Output, start: usize, end: usize) -> SingletonRead
    requires { Fits s.now c × (v.terms < term_limit) × (start ≤ end) × (end ≤ length s.now) }
    ensures { (names : List ℕ) (o : ℕ)
        → Adds (figure (λ x. with_singleton (record { name = slice start end s.now; at = x })) o)
        s.now names o v c result }
{
    match figure_here(s, c, v) {
        Err(fault) => SingletonRead {
            cursor: cursor::refuse_for(c, fault),
            term: None,
        },
        Ok(at) => SingletonRead {
            cursor: cursor::advance(s, c),
            term: Some(Singleton { start, end, at }),
        },
    }
}

// A number as the DEFAULT of output o.
fn default_number(s: &[u8], p: Outputs, o: usize) -> Outputs
    requires { ((names : List ℕ) × Ready s.now (with_outputs names p)) × (o < p.count) }
    ensures by_index { (names : List ℕ) → Collects (figure with_default o) s.now
        (with_outputs names p) (with_outputs names result) }
    ensures count { result.count ≡ p.count }
{
    let c = p.cursor;
    let v = p.rows[o];
    match figure_here(s, c, v) {
        Err(fault) => Outputs {
            cursor: cursor::refuse_for(c, fault),
            ..p
        },
        Ok(default) => {
            let mut r = p;
            r.rows[o] = Output {
                numbered: true,
                default,
                ..v
            };
            r.cursor = cursor::advance(s, c);
            r
        }
    }
}

// By what fault the current token is refused as the name of a new term of output o, if it is none.
fn term_fault(s: &[u8], names: &Names, o: usize, terms: usize, c: Cursor) -> Result<(), Fault>
    requires { Fits s.now c × Placed s.now names.now × (o < output_limit) × (terms ≤ term_limit) }
    ensures value { (b : Block) (n : ℕ) → HasSingletons s.now names.now o terms b
        → number_of result ≡ fault (term_checks o (seen s.now c b n)) }
    ensures kind { OnOk result (c.kind ≡ NAME) }
{
    cursor::name_fault(c)?;
    if lookup::find(
        s,
        names,
        lookup::FIRST_OUTPUT_TERM + o * bounds::TERMS,
        terms,
        c.start,
        c.end,
    )
    .is_some()
    {
        return Err(Fault::WrongName);
    }
    Ok(())
}

// name := number ; as one term more for output o with the row v.
fn singleton_named(s: &[u8], names: &Names, c: Cursor, o: usize, v: Output) -> SingletonRead
    requires { Fits s.now c × Placed s.now names.now × (o < output_limit) × (v.terms < term_limit) }
    ensures { Adds (singleton_body o) s.now names.now o v c result }
{
    if let Err(fault) = term_fault(s, names, o, v.terms, c) {
        return SingletonRead {
            cursor: cursor::refuse_for(c, fault),
            term: None,
        };
    }
    let d = cursor::advance(s, c);
    let e = cursor::expect(s, d, token_kinds::ASSIGN);
    let mut r = singleton_at(s, e, v, c.start, c.end);
    r.cursor = cursor::expect(s, r.cursor, token_kinds::SEMICOLON);
    r
}

// TERM and one term more for output o with the row v.
fn output_term(s: &[u8], names: &Names, c: Cursor, o: usize, v: Output) -> SingletonRead
    requires { Fits s.now c × (c.kind ≡ TERM) × Placed s.now names.now × (o < output_limit)
        × (v.terms ≤ term_limit) }
    ensures adds { Adds (output_term o) s.now names.now o v c result }
    ensures moves { Moves s.now c result.cursor }
{
    if bounds::TERMS <= v.terms {
        return SingletonRead {
            cursor: cursor::refuse_for(c, Fault::TooMany),
            term: None,
        };
    }
    let d = cursor::advance(s, c);
    singleton_named(s, names, d, o, v)
}

// The place of term n of output o among the terms of all outputs.
fn singleton_place(o: usize, n: usize) -> usize
    requires { (o < output_limit) × (n < term_limit) }
    ensures { (result ≡ o * term_limit + n) × (result < output_term_limit) }
{
    o * bounds::TERMS + n
}

// Terms, one or more, each as a record into those of the outputs.
fn output_terms(s: &[u8], names: &mut Names, p: Outputs, o: usize) -> Outputs
    requires { Ready s.now (with_outputs names.old p) × (o < p.count) }
    ensures collects { Collects (λ q. repeated TERM (output_term o) (output_term o q))
        s.now (with_outputs names.old p)
        (with_outputs names.new result) }
    ensures count { result.count ≡ p.count }
{
    let mut c = p.cursor;
    let mut r = p;
    if c.kind != token_kinds::TERM {
        r.cursor = cursor::refuse_for(c, Fault::WrongToken);
        return r;
    }
    while c.kind == token_kinds::TERM {
        let v = r.rows[o];
        let a = output_term(s, names, c, o, v);
        c = a.cursor;
        let Some(u) = a.term else {
            r.cursor = c;
            return r;
        };
        let k = singleton_place(o, v.terms);
        names[lookup::FIRST_OUTPUT_TERM + k] = u.start;
        names[lookup::ENDS + (lookup::FIRST_OUTPUT_TERM + k)] = u.end;
        r.rows[o].terms = v.terms + 1;
        r.singletons[k] = u;
    }
    r.cursor = c;
    r
}

// METHOD : CoGS ; DEFAULT :=
fn method(s: &[u8], c: Cursor) -> Cursor
    requires { Fits s.now c }
    ensures { Step method_text s.now c result }
{
    let a = cursor::expect(s, c, token_kinds::METHOD);
    let b = cursor::expect(s, a, token_kinds::COLON);
    let d = cursor::expect(s, b, token_kinds::COGS);
    let e = cursor::expect(s, d, token_kinds::SEMICOLON);
    let f = cursor::expect(s, e, token_kinds::DEFAULT);
    cursor::expect(s, f, token_kinds::ASSIGN)
}

// A number or NC for output o.
fn default_value(s: &[u8], p: Outputs, o: usize) -> Outputs
    requires { ((names : List ℕ) × Ready s.now (with_outputs names p)) × (o < p.count) }
    ensures by_index { (names : List ℕ) → Collects (default_value o) s.now
        (with_outputs names p) (with_outputs names result) }
    ensures count { result.count ≡ p.count }
{
    if p.cursor.kind != token_kinds::NC {
        return default_number(s, p, o);
    }
    Outputs {
        cursor: cursor::advance(s, p.cursor),
        ..p
    }
}

// The part of output o, from behind its name on.
fn output_part(s: &[u8], names: &mut Names, p: Outputs, o: usize) -> Outputs
    requires { Ready s.now (with_outputs names.old p) × (o < p.count) }
    ensures collects { Collects (part_text o) s.now (with_outputs names.old p)
        (with_outputs names.new result) }
    ensures count { result.count ≡ p.count }
{
    let mut q = optional_range(s, p, o);
    q = output_terms(s, names, q, o);
    q.cursor = method(s, q.cursor);
    q = default_value(s, q, o);
    q.cursor = cursor::expect(s, q.cursor, token_kinds::SEMICOLON);
    q.cursor = cursor::expect(s, q.cursor, token_kinds::END_DEFUZZIFY);
    q
}

fn defuzzify_named(s: &[u8], names: &mut Names, p: Outputs) -> Outputs
    requires { Ready s.now (with_outputs names.old p) }
    ensures collects { Collects defuzzify_variable s.now (with_outputs names.old p)
        (with_outputs names.new result) }
    ensures count { result.count ≡ p.count }
{
    let c = p.cursor;
    let mut q = p;
    if let Err(fault) = cursor::name_fault(c) {
        q.cursor = cursor::refuse_for(c, fault);
        return q;
    }
    let Some(o) = lookup::find(s, names, lookup::FIRST_OUTPUT, p.count, c.start, c.end) else {
        q.cursor = cursor::refuse_for(c, Fault::NotDeclared);
        return q;
    };
    if p.rows[o].terms != 0 {
        q.cursor = cursor::refuse_for(c, Fault::WrongName);
        return q;
    }
    q.cursor = cursor::advance(s, c);
    output_part(s, names, q, o)
}

fn defuzzify_part(s: &[u8], names: &mut Names, p: Outputs) -> Outputs
    requires { Ready s.now (with_outputs names.old p) }
    ensures collects { Collects defuzzify s.now (with_outputs names.old p)
        (with_outputs names.new result) }
    ensures count { result.count ≡ p.count }
    ensures moves { Moves s.now p.cursor result.cursor }
{
    let mut q = p;
    q.cursor = cursor::expect(s, q.cursor, token_kinds::DEFUZZIFY);
    defuzzify_named(s, names, q)
}

// DEFUZZIFY parts, one or more.
pub fn parts(s: &[u8], names: &mut Names, p: Outputs) -> Outputs
    requires { Ready s.now (with_outputs names.old p) }
    ensures collects { Collects (λ q. repeated DEFUZZIFY defuzzify (defuzzify q))
        s.now (with_outputs names.old p)
        (with_outputs names.new result) }
    ensures count { result.count ≡ p.count }
{
    let mut q = defuzzify_part(s, names, p);
    while q.cursor.kind == token_kinds::DEFUZZIFY {
        q = defuzzify_part(s, names, q);
    }
    q
}
