// Rules from their text: the condition's words, the conclusions and the row of each rule behind those that are kept.
#![tactic(auto)]

ghost use Rattle.std.specs.Prelude.{None, ◌≡◌, not, List, [], ◌∷◌, ℕ, ◌+◌, ◌*◌, ◌≤◌, ◌<◌, eqb, length};
ghost use Rattle.model.specs.Basic.{all};
ghost use Rattle.model.specs.Block.{Block, Rule, conclusions as conclusionsOf, with_weight};
ghost use Rattle.model.specs.Keywords.{SEMICOLON, RULE, THEN};
ghost use Rattle.model.specs.Bounds.{M, rule_limit, conclusion_limit};
ghost use Rattle.model.specs.Parse.{refuse, expect, repeated, listed};
ghost use Rattle.model.specs.Tokens.{decimal};
ghost use Rattle.model.specs.Rules.{rule_number, concluded_term, conclusion as conclusionOf, weighted as weightedOf, rule_from, rule as ruleOf};
ghost use Rattle.block_tables.specs.Stored.{kept_width};
ghost use Rattle.refusals.specs.Faults.{number};
ghost use Rattle.cursor.specs.View.{seen, text_of, Fits, left, Step, Moves};
ghost use Rattle.symbol_table.specs.Symbols.{output_count};
ghost use Rattle.symbol_table.specs.Declarations.{Declares};
ghost use Rattle.condition_text.specs.Pending.{Adds};
ghost use Rattle.rule_text.specs.Progress.{Kept, Standing, FewKept, Rows, Concludes, Onward, EndsRule, Goes, Within, midst};

use block_tables::{CONCLUSION_WIDTH, Conclusions, KEPT_RULE_WIDTH, Rules, Totals, Words};
use condition_text::Pending;
use cursor::Cursor;
use model::Degree;
use refusals::Fault;
use symbol_table::Declarations;

// The weight of a rule that gives none.
const ONE: u32 = bounds::M as u32;

// A reading among rules, beside how many are kept.
#[derive(Clone, Copy)]
pub struct Progress {
    pub cursor: Cursor,
    pub totals: Totals,
}

#[derive(Clone, Copy)]
struct Numbered {
    cursor: Cursor,
    number: u32,
}

// A reading among conclusions, beside how many are kept.
#[derive(Clone, Copy)]
struct Concluded {
    cursor: Cursor,
    count: usize,
}

#[derive(Clone, Copy)]
struct Weighed {
    cursor: Cursor,
    weight: Degree,
}

// Whether one of the rules has this number.
fn is_used(rules: &Rules, count: usize, number: u32) -> bool
    requires { count ≤ rule_limit }
    ensures { (rs : List Rule) → Rows rs rules.now count
        → result ≡ not (all (λ q. not (eqb q.number number)) rs) }
{
    for k in 0..count {
        if rules[k * KEPT_RULE_WIDTH] == number {
            return true;
        }
    }
    false
}

fn rule_number(s: &[u8], rules: &Rules, count: usize, c: Cursor) -> Numbered
    requires { Fits s.now c × (count ≤ rule_limit) }
    ensures m_value { (b : Block) (m : ℕ) → Rows b.rules rules.now count
        → seen s.now result.cursor b m ≡ rule_number (seen s.now c b m) }
    ensures within { (left s.now result.cursor ≤ left s.now c)
        × Fits s.now result.cursor × (result.cursor.refused ≡ None → result.number ≡ decimal (text_of s.now c)) }
{
    match number_tokens::number_here(s, c) {
        Err(fault) => Numbered {
            cursor: cursor::refuse_for(c, fault),
            number: 0,
        },
        Ok(number) if is_used(rules, count, number) => Numbered {
            cursor: cursor::refuse_for(c, Fault::WrongName),
            number: 0,
        },
        Ok(number) => Numbered {
            cursor: cursor::advance(s, c),
            number,
        },
    }
}

fn not_concluded(p: Concluded, fault: Fault) -> Concluded
    ensures by_index { (s : List ℕ) → Fits s p.cursor → Step (refuse (number fault)) s p.cursor result.cursor }
    ensures count { result.count ≡ p.count }
{
    Concluded {
        cursor: cursor::refuse_for(p.cursor, fault),
        ..p
    }
}

// term, of output o
fn concluded_term(
    d: &Declarations,
    conclusions: &mut Conclusions,
    p: Concluded,
    o: usize,
) -> Concluded
    requires { Fits d.now.text.now p.cursor × (o < output_count d.now.symbols.now)
        × (p.count < conclusion_limit) }
    ensures concludes { (b : Block) (rs : List Rule) (q : Rule) (m : ℕ)
        → Declares d.now b
        → Concludes (concluded_term o) d.now.text.now b rs q m p result
        conclusions.old conclusions.new }
    ensures onward { Onward d.now.text.now p result }
{
    let c = p.cursor;
    if let Err(fault) = cursor::name_fault(c) {
        return not_concluded(p, fault);
    }
    let v = bounds::INPUTS + o;
    let Some(j) = symbol_table::term_of(d.text, d.names, d.symbols, v, c) else {
        return not_concluded(p, Fault::NotDeclared);
    };
    conclusions[p.count * CONCLUSION_WIDTH] = o as u32;
    conclusions[p.count * CONCLUSION_WIDTH + 1] = (d.symbols[v] + j) as u32;
    Concluded {
        cursor: cursor::advance(d.text, c),
        count: p.count + 1,
    }
}

// output IS term
fn conclusion(d: &Declarations, conclusions: &mut Conclusions, p: Concluded) -> Concluded
    requires { Fits d.now.text.now p.cursor × (p.count ≤ conclusion_limit) }
    ensures concludes { (b : Block) (rs : List Rule) (q : Rule) (m : ℕ)
        → Declares d.now b
        → length (conclusionsOf (midst b rs q)) ≡ p.count
        → Concludes conclusionOf d.now.text.now b rs q m p result conclusions.old conclusions.new }
    ensures onward { Onward d.now.text.now p result }
{
    let c = p.cursor;
    if let Err(fault) = cursor::name_fault(c) {
        return not_concluded(p, fault);
    }
    let Some(o) = symbol_table::output_of(d.text, d.names, d.symbols, c) else {
        return not_concluded(p, Fault::NotDeclared);
    };
    if bounds::CONCLUSIONS <= p.count {
        return not_concluded(p, Fault::TooMany);
    }
    let mut q = p;
    q.cursor = cursor::advance(d.text, q.cursor);
    q.cursor = cursor::expect(d.text, q.cursor, token_kinds::IS);
    concluded_term(d, conclusions, q, o)
}

// Conclusions, with commas between them.
fn conclusion_list(d: &Declarations, conclusions: &mut Conclusions, p: Concluded) -> Concluded
    requires { Fits d.now.text.now p.cursor × (p.count ≤ conclusion_limit) }
    ensures concludes { (b : Block) (rs : List Rule) (q : Rule) (m : ℕ)
        → Declares d.now b
        → length (conclusionsOf (midst b rs q)) ≡ p.count
        → Concludes (listed conclusionOf) d.now.text.now b rs q m p result
        conclusions.old conclusions.new }
    ensures onward { Onward d.now.text.now p result }
{
    let mut q = conclusion(d, conclusions, p);
    while q.cursor.kind == token_kinds::COMMA {
        q.cursor = cursor::advance(d.text, q.cursor);
        q = conclusion(d, conclusions, q);
    }
    q
}

// [WITH weight]
fn weighted(s: &[u8], c: Cursor) -> Weighed
    requires { Fits s.now c }
    ensures m_value { (b : Block) (rs : List Rule) (q : Rule) (m : ℕ) → q.weight ≡ M
        → seen s.now result.cursor (midst b rs (with_weight result.weight.0 q)) m
        ≡ weightedOf (seen s.now c (midst b rs q) m) }
    ensures within { (left s.now result.cursor ≤ left s.now c)
        × Fits s.now result.cursor }
{
    if c.kind != token_kinds::WITH {
        return Weighed {
            cursor: c,
            weight: Degree(ONE),
        };
    }
    let d = cursor::advance(s, c);
    match number_tokens::unit_here(s, d) {
        Err(fault) => Weighed {
            cursor: cursor::refuse_for(d, fault),
            weight: Degree(ONE),
        },
        Ok(weight) => Weighed {
            cursor: cursor::advance(s, d),
            weight,
        },
    }
}

// The row of rule k.
fn put_row(rules: &mut Rules, k: usize, number: u32, words: u32, conclusions: u32, weight: Degree)
    requires { k < rule_limit }
    ensures { Adds (k * kept_width) ((k + 1) * kept_width) (number ∷ words ∷ conclusions ∷ weight.0 ∷ [])
        rules.old rules.new }
{
    rules[k * KEPT_RULE_WIDTH] = number;
    rules[k * KEPT_RULE_WIDTH + 1] = words;
    rules[k * KEPT_RULE_WIDTH + 2] = conclusions;
    rules[k * KEPT_RULE_WIDTH + 3] = weight.0;
}

// From THEN on, for the rule of this number and with so many condition words.
fn rule_given(
    d: &Declarations,
    rules: &mut Rules,
    conclusions: &mut Conclusions,
    p: Progress,
    number: u32,
    words: u32,
) -> Progress
    requires { Fits d.now.text.now p.cursor × FewKept p.totals
        × (p.totals.rules < rule_limit) }
    ensures ends_rule { (b : Block) (rs : List Rule) (q : Rule)
        → Declares d.now b
        → length (conclusionsOf (midst b rs q)) ≡ p.totals.conclusions → q.weight ≡ M
        → EndsRule (λ y. expect SEMICOLON (weightedOf (listed conclusionOf (expect THEN y))))
        d.now.text.now b rs q p result number words
        rules.old rules.new conclusions.old conclusions.new }
    ensures within { Within d.now.text.now p result }
{
    let t = p.totals;
    let a = Concluded {
        cursor: cursor::expect(d.text, p.cursor, token_kinds::THEN),
        count: t.conclusions,
    };
    let q = conclusion_list(d, conclusions, a);
    let x = weighted(d.text, q.cursor);
    let k = (q.count - t.conclusions) as u32;
    put_row(rules, t.rules, number, words, k, x.weight);
    Progress {
        cursor: cursor::expect(d.text, x.cursor, token_kinds::SEMICOLON),
        totals: Totals {
            rules: t.rules + 1,
            conclusions: q.count,
            ..t
        },
    }
}

// From the rule's number on.
fn rule_from(
    d: &Declarations,
    rules: &mut Rules,
    words: &mut Words,
    conclusions: &mut Conclusions,
    p: Progress,
) -> Progress
    requires { Fits d.now.text.now p.cursor × FewKept p.totals
        × (p.totals.rules < rule_limit)
        × Standing d.now rules.old words.old conclusions.old p.totals }
    ensures goes { (b : Block) → Declares d.now b
        → Kept b.rules rules.old words.old conclusions.old p.totals
        → Goes rule_from d.now.text.now b p result rules.new words.new conclusions.new }
    ensures within { Within d.now.text.now p result }
{
    let t = p.totals;
    let n = rule_number(d.text, rules, t.rules, p.cursor);
    let e = cursor::expect(d.text, n.cursor, token_kinds::COLON);
    let f = cursor::expect(d.text, e, token_kinds::IF);
    let a = Pending {
        cursor: f,
        words: t.words,
        put: t.words,
    };
    let q = condition_text::condition(d, words, a, bounds::DEPTH);
    let r = Progress {
        cursor: q.cursor,
        totals: Totals {
            words: q.words,
            ..t
        },
    };
    if r.cursor.refused.is_some() {
        return r;
    }
    let k = (q.put - t.words) as u32;
    rule_given(d, rules, conclusions, r, n.number, k)
}

fn refused(p: Progress, fault: Fault) -> Progress
    ensures by_index { (s : List ℕ) → Fits s p.cursor → Step (refuse (number fault)) s p.cursor result.cursor
        × Moves s p.cursor result.cursor }
    ensures totals { (result.totals ≡ p.totals) × (result.cursor.refused ≡ None → ⊥) }
{
    Progress {
        cursor: cursor::refuse_for(p.cursor, fault),
        ..p
    }
}

fn rule(
    d: &Declarations,
    rules: &mut Rules,
    words: &mut Words,
    conclusions: &mut Conclusions,
    p: Progress,
) -> Progress
    requires { Fits d.now.text.now p.cursor × FewKept p.totals
        × Standing d.now rules.old words.old conclusions.old p.totals }
    ensures goes { (b : Block) → Declares d.now b
        → Kept b.rules rules.old words.old conclusions.old p.totals
        → Goes ruleOf d.now.text.now b p result rules.new words.new conclusions.new }
    ensures within { Within d.now.text.now p result }
    ensures moves { Moves d.now.text.now p.cursor result.cursor }
{
    if p.cursor.kind != token_kinds::RULE {
        return refused(p, Fault::WrongToken);
    }
    if bounds::RULES <= p.totals.rules {
        return refused(p, Fault::TooMany);
    }
    let q = Progress {
        cursor: cursor::advance(d.text, p.cursor),
        ..p
    };
    rule_from(d, rules, words, conclusions, q)
}

// Rules, one or more.
pub fn rules(
    d: &Declarations,
    rules: &mut Rules,
    words: &mut Words,
    conclusions: &mut Conclusions,
    p: Progress,
) -> Progress
    requires { Fits d.now.text.now p.cursor × FewKept p.totals
        × Standing d.now rules.old words.old conclusions.old p.totals }
    ensures goes { (b : Block) → Declares d.now b
        → Kept b.rules rules.old words.old conclusions.old p.totals
        → Goes (λ y. repeated RULE ruleOf (ruleOf y)) d.now.text.now b p result
        rules.new words.new conclusions.new }
    ensures within { Within d.now.text.now p result }
{
    let mut q = rule(d, rules, words, conclusions, p);
    while q.cursor.kind == token_kinds::RULE {
        q = rule(d, rules, words, conclusions, q);
    }
    q
}
