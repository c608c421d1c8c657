// The heading of a rule block, from RULEBLOCK to the semicolon of ACCU.
#![tactic(auto)]

ghost use Rattle.std.specs.Prelude.{◌≡◌, List, ℕ, ◌≤◌, ◌<◌};
ghost use Rattle.model.specs.Basic.{◌▸◌};
ghost use Rattle.model.specs.Block.{Block, with_rule_block};
ghost use Rattle.model.specs.Keywords.{COLON, SEMICOLON, ACCU};
ghost use Rattle.model.specs.Parse.{kind, refuse, expect, own_name};
ghost use Rattle.model.specs.Rules.{and_pair, or_pair, algorithm as algorithmOf, algorithm_line, algorithms as algorithmsOf, activation as activationOf, activation_line, accumulation as accumulationOf};
ghost use Rattle.refusals.specs.Faults.{number};
ghost use Rattle.cursor.specs.View.{seen, Fits, left};
ghost use Rattle.block_tables.specs.View.{Headed};
ghost use Rattle.rule_heading.specs.Opening.{opening, headed, Bare, Opens, pairs, as_read};

use block_tables::Heading;
use cursor::Cursor;
use model::{Accumulation, Activation, Pair};
use refusals::Fault;

// A reading in a heading, beside what it says so far.
#[derive(Clone, Copy)]
pub struct Opened {
    pub cursor: Cursor,
    pub heading: Heading,
}

fn refused(p: Opened, fault: Fault) -> Opened
    ensures { (s : List ℕ) → Fits s p.cursor → Headed s p.heading → Opens (refuse (number fault)) s p result }
{
    Opened {
        cursor: cursor::refuse_for(p.cursor, fault),
        ..p
    }
}

fn expected(s: &[u8], p: Opened, k: u8) -> Opened
    requires { Fits s.now p.cursor × Headed s.now p.heading × (0 < k) }
    ensures { Opens (expect k) s.now p result }
{
    Opened {
        cursor: cursor::expect(s, p.cursor, k),
        ..p
    }
}

// The block's own name.
fn block_name(s: &[u8], p: Opened) -> Opened
    requires { Fits s.now p.cursor × Headed s.now p.heading }
    ensures { Opens (own_name with_rule_block) s.now p result }
{
    let c = p.cursor;
    if let Err(fault) = cursor::name_fault(c) {
        return refused(p, fault);
    }
    Opened {
        cursor: cursor::advance(s, c),
        heading: Heading {
            start: c.start,
            end: c.end,
            ..p.heading
        },
    }
}

// The pair that an algorithm for AND is of.
fn and_pair(w: u8) -> Option<Pair>
    ensures { as_read result ≡ and_pair w }
{
    match w {
        token_kinds::MIN => Some(Pair::MinMax),
        token_kinds::PROD => Some(Pair::ProdAsum),
        token_kinds::BDIF => Some(Pair::BdifBsum),
        _ => None,
    }
}

// The pair that an algorithm for OR is of.
fn or_pair(w: u8) -> Option<Pair>
    ensures { as_read result ≡ or_pair w }
{
    match w {
        token_kinds::MAX => Some(Pair::MinMax),
        token_kinds::ASUM => Some(Pair::ProdAsum),
        token_kinds::BSUM => Some(Pair::BdifBsum),
        _ => None,
    }
}

// For AND or OR.
fn pair_of(k: u8, w: u8) -> Option<Pair>
    ensures { as_read result ≡ pairs k w }
{
    if k == token_kinds::AND {
        and_pair(w)
    } else {
        or_pair(w)
    }
}

// The first algorithm sets the pair; the second has to be of it.
fn algorithm(s: &[u8], p: Opened, second: bool, k: u8) -> Opened
    requires { Fits s.now p.cursor × Headed s.now p.heading }
    ensures { Opens (λ y. algorithmOf second (pairs k (kind y)) y) s.now p result }
{
    let Some(pair) = pair_of(k, p.cursor.kind) else {
        return refused(p, Fault::WrongToken);
    };
    if second && p.heading.pair != pair {
        return refused(p, Fault::Unpaired);
    }
    Opened {
        cursor: cursor::advance(s, p.cursor),
        heading: Heading { pair, ..p.heading },
    }
}

// AND or OR with its algorithm
fn algorithm_line(s: &[u8], p: Opened, second: bool, k: u8) -> Opened
    requires { Fits s.now p.cursor × Headed s.now p.heading × (0 < k) }
    ensures { Opens (algorithm_line second k (pairs k)) s.now p result }
{
    let p = expected(s, p, k);
    let p = expected(s, p, token_kinds::COLON);
    let p = algorithm(s, p, second, k);
    expected(s, p, token_kinds::SEMICOLON)
}

// Each optional, in either order.
fn algorithms(s: &[u8], p: Opened) -> Opened
    requires { Fits s.now p.cursor × Headed s.now p.heading }
    ensures { Opens algorithmsOf s.now p result }
{
    let (first, other) = match p.cursor.kind {
        token_kinds::AND => (token_kinds::AND, token_kinds::OR),
        token_kinds::OR => (token_kinds::OR, token_kinds::AND),
        _ => return p,
    };
    let p = algorithm_line(s, p, false, first);
    if p.cursor.kind == other {
        algorithm_line(s, p, true, other)
    } else {
        p
    }
}

fn activation(s: &[u8], p: Opened) -> Opened
    requires { Fits s.now p.cursor × Headed s.now p.heading }
    ensures { Opens activationOf s.now p result }
{
    let act = match p.cursor.kind {
        token_kinds::MIN => Activation::Min,
        token_kinds::PROD => Activation::Prod,
        _ => return refused(p, Fault::WrongToken),
    };
    Opened {
        cursor: cursor::advance(s, p.cursor),
        heading: Heading { act, ..p.heading },
    }
}

// [ACT with its algorithm]
fn activation_line(s: &[u8], p: Opened) -> Opened
    requires { Fits s.now p.cursor × Headed s.now p.heading }
    ensures { Opens activation_line s.now p result }
{
    if p.cursor.kind != token_kinds::ACT {
        return p;
    }
    let p = expected(s, p, token_kinds::ACT);
    let p = expected(s, p, token_kinds::COLON);
    let p = activation(s, p);
    expected(s, p, token_kinds::SEMICOLON)
}

fn accumulation(s: &[u8], p: Opened) -> Opened
    requires { Fits s.now p.cursor × Headed s.now p.heading }
    ensures { Opens accumulationOf s.now p result }
{
    let accu = match p.cursor.kind {
        token_kinds::MAX => Accumulation::Max,
        token_kinds::BSUM => Accumulation::Bsum,
        _ => return refused(p, Fault::WrongToken),
    };
    Opened {
        cursor: cursor::advance(s, p.cursor),
        heading: Heading { accu, ..p.heading },
    }
}

// ACCU with its algorithm
fn accumulation_line(s: &[u8], p: Opened) -> Opened
    requires { Fits s.now p.cursor × Headed s.now p.heading }
    ensures { Opens (λ y. y ▸ expect ACCU ▸ expect COLON ▸ accumulationOf ▸ expect SEMICOLON)
        s.now p result }
{
    let p = expected(s, p, token_kinds::ACCU);
    let p = expected(s, p, token_kinds::COLON);
    let p = accumulation(s, p);
    expected(s, p, token_kinds::SEMICOLON)
}

pub fn rule_heading(s: &[u8], c: Cursor) -> Opened
    requires { Fits s.now c }
    ensures n_value { (b : Block) (n : ℕ) → Bare b
        → seen s.now result.cursor (headed s.now result.heading b) n
        ≡ opening (seen s.now c b n) }
    ensures within { (left s.now result.cursor ≤ left s.now c)
        × Fits s.now result.cursor × Headed s.now result.heading }
{
    let p = Opened {
        cursor: c,
        heading: Heading {
            start: 0,
            end: 0,
            pair: Pair::MinMax,
            accu: Accumulation::Max,
            act: Activation::Min,
        },
    };
    let p = expected(s, p, token_kinds::RULEBLOCK);
    let p = block_name(s, p);
    let p = algorithms(s, p);
    let p = activation_line(s, p);
    accumulation_line(s, p)
}
