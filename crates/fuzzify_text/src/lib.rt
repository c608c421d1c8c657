// FUZZIFY parts: the terms of an input, each a name and two to four points whose positions do not fall, no three of them
// the same.
#![tactic(auto)]

ghost use Rattle.std.specs.Prelude.{None, MatchOption, IfSome, ◌≡◌, true, ℕ, ◌+◌, ◌*◌, ◌≤◌, ◌<◌, length};
ghost use Rattle.model.specs.Bounds.{input_limit, term_limit, point_limit, input_term_limit};
ghost use Rattle.model.specs.Tokens.{value_of};
ghost use Rattle.model.specs.Keywords.{TERM, FUZZIFY};
ghost use Rattle.model.specs.Block.{Block};
ghost use Rattle.model.specs.Parse.{listed, repeated};
ghost use Rattle.model.specs.Declarations.{point_degree as aDegree, point_body, point as aPoint, input_term, fuzzify};
ghost use Rattle.lookup.specs.Names.{Placed};
ghost use Rattle.cursor.specs.View.{text_of, Fits, Step};
ghost use Rattle.parse_state.specs.Beside.{Ready, Collects};
ghost use Rattle.fuzzify_text.specs.Terms.{position_after, end_after, ReadsPoint, no_points, ReadsShape, term_from, Terms, Names as Reached, Named, inputs_in, Finds};

use block_tables::{Input, Term};
use cursor::Cursor;
use lookup::Names;
use model::{Crisp, Degree, Point};
use refusals::Fault;
use term_rules::LastTwo;

// The cursor behind a position, and its value where it is not refused.
#[derive(Clone, Copy)]
struct At {
    cursor: Cursor,
    value: Option<Crisp>,
}

// The cursor behind a point, and the point, where it is read as far as its degree.
#[derive(Clone, Copy)]
struct PointRead {
    cursor: Cursor,
    point: Option<Point>,
}

// The points of a term so far.
#[derive(Clone, Copy)]
struct Shape {
    cursor: Cursor,
    count: usize,
    points: [Point; bounds::POINTS],
}

// A reading among inputs: what FUZZIFY changes of the tables, beside their names.
#[derive(Clone, Copy)]
pub struct Inputs {
    pub cursor: Cursor,
    pub count: usize,
    pub rows: [Input; bounds::INPUTS],
    pub terms: [Term; bounds::INPUT_TERMS],
}

// The cursor behind the name of a term, and the place of the name.
#[derive(Clone, Copy)]
struct TermName {
    cursor: Cursor,
    start: usize,
    end: usize,
}

// The cursor behind the name of an input, and which one it is, if any.
#[derive(Clone, Copy)]
struct Found {
    cursor: Cursor,
    input: Option<usize>,
}

// A position after n others, the last two of them given.
fn position(s: &[u8], c: Cursor, n: usize, last: LastTwo) -> At
    requires { Fits s.now c }
    ensures step { Step (position_after n last) s.now c result.cursor }
    ensures value { MatchOption result.value (result.cursor.refused ≡ None → ⊥) (λ x. x.0 ≡ value_of (text_of s.now c)) }
{
    match number_tokens::crisp_here(s, c) {
        Err(fault) => At {
            cursor: cursor::refuse_for(c, fault),
            value: None,
        },
        Ok(value) if term_rules::may_stand(n, last, value) => At {
            cursor: cursor::advance(s, c),
            value: Some(value),
        },
        Ok(_) => At {
            cursor: cursor::refuse_for(c, Fault::WrongPosition),
            value: None,
        },
    }
}

// The degree at position x.
fn degree(s: &[u8], c: Cursor, x: Crisp) -> PointRead
    requires { Fits s.now c }
    ensures { (n : ℕ) (last : LastTwo) → ReadsPoint (λ i. aDegree i x.0) n last s.now c result }
{
    match number_tokens::unit_here(s, c) {
        Err(fault) => PointRead {
            cursor: cursor::refuse_for(c, fault),
            point: None,
        },
        Ok(degree) => PointRead {
            cursor: cursor::advance(s, c),
            point: Some(Point { at: x, degree }),
        },
    }
}

// A point behind its parenthesis, after n others, the last two positions given.
fn point_from(s: &[u8], c: Cursor, n: usize, last: LastTwo) -> PointRead
    requires { Fits s.now c }
    ensures { ReadsPoint point_body n last s.now c result }
{
    let a = position(s, c, n, last);
    let Some(x) = a.value else {
        return PointRead {
            cursor: a.cursor,
            point: None,
        };
    };
    let e = cursor::expect(s, a.cursor, token_kinds::COMMA);
    let mut r = degree(s, e, x);
    r.cursor = cursor::expect(s, r.cursor, token_kinds::CLOSE);
    r
}

// A point after n others, the last two positions given.
fn point(s: &[u8], c: Cursor, n: usize, last: LastTwo) -> PointRead
    requires { Fits s.now c }
    ensures reads_point { ReadsPoint aPoint n last s.now c result }
    ensures few { IfSome result.point (λ q. n < point_limit) }
{
    if c.kind != token_kinds::OPEN {
        return PointRead {
            cursor: cursor::refuse_for(c, Fault::WrongToken),
            point: None,
        };
    }
    if bounds::POINTS <= n {
        return PointRead {
            cursor: cursor::refuse_for(c, Fault::TooMany),
            point: None,
        };
    }
    let d = cursor::advance(s, c);
    point_from(s, d, n, last)
}

// Points, one or more.
fn points(s: &[u8], c: Cursor) -> Shape
    requires { Fits s.now c }
    ensures { ReadsShape (λ i. listed (aPoint i)) s.now (no_points c) result }
{
    let mut last = LastTwo {
        earlier: Crisp(0),
        later: Crisp(0),
    };
    let mut points = [Point {
        at: Crisp(0),
        degree: Degree(0),
    }; bounds::POINTS];
    let mut n: usize = 0;
    let mut d = c;
    loop {
        let a = point(s, d, n, last);
        let Some(q) = a.point else {
            return Shape {
                cursor: a.cursor,
                count: n,
                points,
            };
        };
        points[n] = q;
        n += 1;
        if a.cursor.kind != token_kinds::COMMA {
            return Shape {
                cursor: a.cursor,
                count: n,
                points,
            };
        }
        last = LastTwo {
            earlier: last.later,
            later: q.at,
        };
        d = cursor::advance(s, a.cursor);
    }
}

// The semicolon behind n points.
fn end_of_points(s: &[u8], c: Cursor, n: usize) -> Cursor
    requires { Fits s.now c }
    ensures { Step (end_after n) s.now c result }
{
    if c.kind != token_kinds::SEMICOLON {
        return cursor::refuse_for(c, Fault::WrongToken);
    }
    if n < bounds::LEAST_POINTS {
        return cursor::refuse_for(c, Fault::WrongPosition);
    }
    cursor::advance(s, c)
}

// What follows a term's name.
fn term_points(s: &[u8], c: Cursor) -> Shape
    requires { Fits s.now c }
    ensures { ReadsShape term_from s.now (no_points c) result }
{
    let mut r = points(s, cursor::expect(s, c, token_kinds::ASSIGN));
    r.cursor = end_of_points(s, r.cursor, r.count);
    r
}

// TERM and the name of one term more for input i, which has n.
fn term_name(s: &[u8], names: &Names, c: Cursor, i: usize, n: usize) -> TermName
    requires { Fits s.now c × (c.kind ≡ TERM) × Placed s.now names.now × (i < input_limit) × (n ≤ term_limit) }
    ensures reached { (b : Block) → Terms s.now names.now i n b
        → Reached s.now i b c result }
    ensures named { Named s.now n c result }
{
    if bounds::TERMS <= n {
        return TermName {
            cursor: cursor::refuse_for(c, Fault::TooMany),
            start: 0,
            end: 0,
        };
    }
    let d = cursor::advance(s, c);
    if let Err(fault) = cursor::name_fault(d) {
        return TermName {
            cursor: cursor::refuse_for(d, fault),
            start: 0,
            end: 0,
        };
    }
    if lookup::find(
        s,
        names,
        lookup::FIRST_TERM + i * bounds::TERMS,
        n,
        d.start,
        d.end,
    )
    .is_some()
    {
        return TermName {
            cursor: cursor::refuse_for(d, Fault::WrongName),
            start: 0,
            end: 0,
        };
    }
    TermName {
        cursor: cursor::advance(s, d),
        start: d.start,
        end: d.end,
    }
}

// The place of term n of input i among the terms of all inputs.
fn term_place(i: usize, n: usize) -> usize
    requires { (i < input_limit) × (n < term_limit) }
    ensures { (result ≡ i * term_limit + n) × (result < input_term_limit) }
{
    i * bounds::TERMS + n
}

// Terms, one or more, each as a record into the terms of the inputs.
fn input_terms(s: &[u8], names: &mut Names, p: Inputs, i: usize) -> Inputs
    requires { Ready s.now (inputs_in names.old p) × (i < p.count) }
    ensures collects { Collects (λ q. repeated TERM (input_term i) (input_term i q))
        s.now (inputs_in names.old p)
        (inputs_in names.new result) }
    ensures count { result.count ≡ p.count }
{
    let mut c = p.cursor;
    let mut r = p;
    if c.kind != token_kinds::TERM {
        r.cursor = cursor::refuse_for(c, Fault::WrongToken);
        return r;
    }
    while c.kind == token_kinds::TERM {
        let n = r.rows[i].terms;
        let a = term_name(s, names, c, i, n);
        if a.cursor.refused.is_some() {
            r.cursor = a.cursor;
            return r;
        }
        let q = term_points(s, a.cursor);
        let points = q.points;
        let k = term_place(i, n);
        names[lookup::FIRST_TERM + k] = a.start;
        names[lookup::ENDS + (lookup::FIRST_TERM + k)] = a.end;
        r.rows[i].terms = n + 1;
        r.terms[k] = Term {
            start: a.start,
            end: a.end,
            count: q.count,
            points,
        };
        c = q.cursor;
    }
    r.cursor = c;
    r
}

// FUZZIFY and the name of one of n inputs, which has no terms.
fn input_named(s: &[u8], names: &Names, c: Cursor, n: usize, rows: [Input; bounds::INPUTS]) -> Found
    requires { Fits s.now c × Placed s.now names.now × (n ≤ input_limit) × (length rows ≡ input_limit) }
    ensures { Finds s.now names.now n rows c result }
{
    let d = cursor::expect(s, c, token_kinds::FUZZIFY);
    if let Err(fault) = cursor::name_fault(d) {
        return Found {
            cursor: cursor::refuse_for(d, fault),
            input: None,
        };
    }
    let Some(i) = lookup::find(s, names, 0, n, d.start, d.end) else {
        return Found {
            cursor: cursor::refuse_for(d, Fault::NotDeclared),
            input: None,
        };
    };
    if rows[i].terms != 0 {
        return Found {
            cursor: cursor::refuse_for(d, Fault::WrongName),
            input: None,
        };
    }
    Found {
        cursor: cursor::advance(s, d),
        input: Some(i),
    }
}

// FUZZIFY parts, one or more.
pub fn parts(s: &[u8], names: &mut Names, p: Inputs) -> Inputs
    requires { Ready s.now (inputs_in names.old p) }
    ensures { Collects (λ q. repeated FUZZIFY fuzzify (fuzzify q))
        s.now (inputs_in names.old p)
        (inputs_in names.new result) }
{
    let mut q = p;
    loop {
        let a = input_named(s, names, q.cursor, q.count, q.rows);
        q.cursor = a.cursor;
        let Some(i) = a.input else {
            return q;
        };
        q = input_terms(s, names, q, i);
        q.cursor = cursor::expect(s, q.cursor, token_kinds::END_FUZZIFY);
        if q.cursor.kind != token_kinds::FUZZIFY {
            return q;
        }
    }
}
