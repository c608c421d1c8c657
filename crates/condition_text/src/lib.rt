// A condition's text to its words: parentheses first, then NOT, AND, OR, equal operators grouped to the left. Each NOT,
// AND, OR and input name is counted at its token; its word is put when its operands are.
#![tactic(auto)]

ghost use Rattle.std.specs.Prelude.{None, ◌≡◌, List, ℕ, ◌≤◌, ◌<◌};
ghost use Rattle.model.specs.Bounds.{word_limit};
ghost use Rattle.model.specs.Block.{Block, and};
ghost use Rattle.model.specs.Keywords.{AND, END};
ghost use Rattle.model.specs.Parse.{refuse};
ghost use Rattle.model.specs.Rules.{word, condition_term, term_or_not, subcondition as subconditionOf, chain, plain as plain_of, operand as operandOf, condition_with, parenthesis};
ghost use Rattle.refusals.specs.Faults.{number};
ghost use Rattle.cursor.specs.View.{seen, Fits, Step};
ghost use Rattle.symbol_table.specs.Symbols.{input_count};
ghost use Rattle.symbol_table.specs.Declarations.{Declares};
ghost use Rattle.condition_text.specs.Pending.{Declared, Room, ReadsCondition, Balanced, Stops, Counts, Puts};

use block_tables::Words;
use cursor::Cursor;
use refusals::Fault;
use symbol_table::Declarations;

const NOT_WORD: u32 = condition_words::NOT_WORD as u32;

const AND_WORD: u32 = condition_words::AND_WORD as u32;

const OR_WORD: u32 = condition_words::OR_WORD as u32;

// A reading in the midst of a condition: the words that are counted, and how many of them are put.
#[derive(Clone, Copy)]
pub struct Pending {
    pub cursor: Cursor,
    pub words: usize,
    pub put: usize,
}

fn refused(p: Pending, fault: Fault) -> Pending
    ensures by_index { (s : List ℕ) → Fits s p.cursor → Step (refuse (number fault)) s p.cursor result.cursor }
    ensures stops { Stops p result }
{
    Pending {
        cursor: cursor::refuse_for(p.cursor, fault),
        ..p
    }
}

// The current token as one condition word more.
fn count(s: &[u8], p: Pending) -> Pending
    requires { Room s.now p × (p.cursor.kind ≡ END → ⊥) }
    ensures words_value { (b : Block)
        → seen s.now result.cursor b result.words ≡ word (seen s.now p.cursor b p.words) }
    ensures counts { Counts s.now p result }
{
    if p.words < bounds::WORDS {
        return Pending {
            cursor: cursor::advance(s, p.cursor),
            words: p.words + 1,
            ..p
        };
    }
    refused(p, Fault::TooMany)
}

// A word behind those that are put.
fn put(words: &mut Words, p: Pending, w: u32) -> Pending
    requires { (p.put ≤ p.words) × (p.words ≤ word_limit) × (p.cursor.refused ≡ None → p.put < p.words) }
    ensures { Puts p result w words.old words.new }
{
    if p.cursor.refused.is_some() {
        return p;
    }
    words[p.put] = w;
    Pending {
        put: p.put + 1,
        ..p
    }
}

// term, of input i
fn term_named(d: &Declarations, words: &mut Words, p: Pending, i: usize) -> Pending
    requires { Room d.now.text.now p × (i < input_count d.now.symbols.now)
        × (p.cursor.refused ≡ None → p.put < p.words) }
    ensures reads_condition { (b : Block) → Declares d.now b
        → ReadsCondition d.now.text.now b p result (condition_term i (seen d.now.text.now p.cursor b p.words))
        words.old words.new }
    ensures within { Balanced d.now.text.now 1 p result words.old words.new }
{
    let c = p.cursor;
    if let Err(fault) = cursor::name_fault(c) {
        return refused(p, fault);
    }
    let Some(j) = symbol_table::term_of(d.text, d.names, d.symbols, i, c) else {
        return refused(p, Fault::NotDeclared);
    };
    put(
        words,
        Pending {
            cursor: cursor::advance(d.text, c),
            ..p
        },
        (condition_words::TERM_WORD + d.symbols[i] + j) as u32,
    )
}

// [NOT] term
fn term_here(d: &Declarations, words: &mut Words, p: Pending, i: usize) -> Pending
    requires { Room d.now.text.now p × (i < input_count d.now.symbols.now)
        × (p.cursor.refused ≡ None → p.put < p.words) }
    ensures reads_condition { (b : Block) → Declares d.now b
        → ReadsCondition d.now.text.now b p result (term_or_not i (seen d.now.text.now p.cursor b p.words))
        words.old words.new }
    ensures within { Balanced d.now.text.now 1 p result words.old words.new }
{
    if p.cursor.kind != token_kinds::NOT {
        return term_named(d, words, p, i);
    }
    let q = count(d.text, p);
    let r = term_named(d, words, q, i);
    put(words, r, NOT_WORD)
}

// input IS [NOT] term
fn subcondition(d: &Declarations, words: &mut Words, p: Pending) -> Pending
    requires { Room d.now.text.now p }
    ensures reads_condition { (b : Block) → Declares d.now b
        → ReadsCondition d.now.text.now b p result (subconditionOf (seen d.now.text.now p.cursor b p.words))
        words.old words.new }
    ensures within { Balanced d.now.text.now 0 p result words.old words.new }
{
    let c = p.cursor;
    if let Err(fault) = cursor::name_fault(c) {
        return refused(p, fault);
    }
    let Some(i) = symbol_table::input_of(d.text, d.names, d.symbols, c) else {
        return refused(p, Fault::NotDeclared);
    };
    let mut q = count(d.text, p);
    q.cursor = cursor::expect(d.text, q.cursor, token_kinds::IS);
    term_here(d, words, q, i)
}

// A subcondition or a parenthesised condition, where depth more parentheses may be open at once.
#[cycle(condition_conjunction_operand_plain)]
fn plain(d: &Declarations, words: &mut Words, p: Pending, depth: usize) -> Pending
    requires { Room d.now.text.now p × Declared d.now }
    ensures reads_condition { (b : Block) → Declares d.now b
        → ReadsCondition d.now.text.now b p result (plain_of (parenthesis depth) (seen d.now.text.now p.cursor b p.words))
        words.old words.new }
    ensures within { Balanced d.now.text.now 0 p result words.old words.new }
{
    if p.cursor.kind != token_kinds::OPEN {
        return subcondition(d, words, p);
    }
    if depth == 0 {
        return refused(p, Fault::TooMany);
    }
    let mut q = p;
    q.cursor = cursor::advance(d.text, q.cursor);
    q = condition(d, words, q, depth - 1);
    q.cursor = cursor::expect(d.text, q.cursor, token_kinds::CLOSE);
    q
}

#[cycle(condition_conjunction_operand_plain)]
fn operand(d: &Declarations, words: &mut Words, p: Pending, depth: usize) -> Pending
    requires { Room d.now.text.now p × Declared d.now }
    ensures reads_condition { (b : Block) → Declares d.now b
        → ReadsCondition d.now.text.now b p result (operandOf (parenthesis depth) (seen d.now.text.now p.cursor b p.words))
        words.old words.new }
    ensures within { Balanced d.now.text.now 0 p result words.old words.new }
{
    if p.cursor.kind != token_kinds::NOT {
        return plain(d, words, p, depth);
    }
    let q = count(d.text, p);
    let r = plain(d, words, q, depth);
    put(words, r, NOT_WORD)
}

// operand {AND operand}
#[cycle(condition_conjunction_operand_plain)]
fn conjunction(d: &Declarations, words: &mut Words, p: Pending, depth: usize) -> Pending
    requires { Room d.now.text.now p × Declared d.now }
    ensures reads_condition { (b : Block) → Declares d.now b
        → ReadsCondition d.now.text.now b p result
        (chain (operandOf (parenthesis depth)) AND and (seen d.now.text.now p.cursor b p.words))
        words.old words.new }
    ensures within { Balanced d.now.text.now 0 p result words.old words.new }
{
    let mut q = operand(d, words, p, depth);
    while q.cursor.kind == token_kinds::AND {
        let n = count(d.text, q);
        let m = operand(d, words, n, depth);
        q = put(words, m, AND_WORD);
    }
    q
}

// conjunction {OR conjunction}
#[cycle(condition_conjunction_operand_plain)]
pub fn condition(d: &Declarations, words: &mut Words, p: Pending, depth: usize) -> Pending
    requires { Room d.now.text.now p × Declared d.now }
    ensures reads_condition { (b : Block) → Declares d.now b
        → ReadsCondition d.now.text.now b p result
        (condition_with (parenthesis depth) (seen d.now.text.now p.cursor b p.words))
        words.old words.new }
    ensures within { Balanced d.now.text.now 0 p result words.old words.new }
{
    let mut q = conjunction(d, words, p, depth);
    while q.cursor.kind == token_kinds::OR {
        let n = count(d.text, q);
        let m = conjunction(d, words, n, depth);
        q = put(words, m, OR_WORD);
    }
    q
}
