// The rules of a stored block as a listing prints them, and the rule block around them.
#![tactic(auto, using(listing_writer::proofs::Prepends::parts))]

ghost use Rattle.std.specs.Prelude.{◌<◌};
ghost use Rattle.model.specs.Basic.{gather};
ghost use Rattle.model.specs.Image.{word_at, decode, rule_at};
ghost use Rattle.model.specs.Listing.{input_term_name, condition_text, rule_line};
ghost use Rattle.model.specs.Listing.{and_text, or_text, act_text, accu_text, rule_block_text};
ghost use Rattle.listing_writer.specs.Prepends.{Writes};

use conclusion_listing::{conclusions, weight};
use condition_listing::condition;
use header::{RULE_BLOCK_NAME, RULE_WEIGHT, RULE_WORD_FIRST, RULE_WORDS};
use layout::CheckedImage;
use listing_writer::Listing;
use model::{Accumulation, Activation, Degree, Pair};
use name_listing::name;
use number_listing::digits;

// The condition of rule i.
fn rule_condition(out: &mut Listing, image: &CheckedImage, i: usize)
    requires { i < image.now.stored.header.rules.rows }
    ensures { Writes
        (condition_text (input_term_name (decode (word_at image.now.stored.bytes.now)))
        (rule_at (word_at image.now.stored.bytes.now) i).condition)
        out.old out.new }
{
    let stored = &image.stored;
    let row = stored.header.rules.row(i);
    let first = stored.header.words.start + stored.word(row + RULE_WORD_FIRST);
    condition(out, image, first + stored.word(row + RULE_WORDS));
}

// The line of rule i.
#[tactic(auto, using(listing_writer::proofs::Prepends::parts), unfolding(model::specs::Listing::rule_line, model::specs::Image::rule_at))]
fn rule(out: &mut Listing, image: &CheckedImage, i: usize)
    requires { i < image.now.stored.header.rules.rows }
    ensures { Writes
        (rule_line (decode (word_at image.now.stored.bytes.now)) (rule_at (word_at image.now.stored.bytes.now) i))
        out.old out.new }
{
    let stored = &image.stored;
    let row = stored.header.rules.row(i);
    out.puts(b";\n");
    weight(out, Degree(stored.word(row + RULE_WEIGHT) as u32));
    conclusions(out, image, i);
    out.puts(b" THEN ");
    rule_condition(out, image, i);
    out.puts(b" : IF ");
    digits(out, stored.word(row));
    out.puts(b"  RULE ");
}

#[tactic(auto, using(listing_writer::proofs::Lists::items), unfolding(model::specs::Image::decode))]
fn rules(out: &mut Listing, image: &CheckedImage)
    ensures { Writes
        (gather (rule_line (decode (word_at image.now.stored.bytes.now)))
        (decode (word_at image.now.stored.bytes.now)).rules)
        out.old out.new }
{
    for i in (0..image.stored.header.rules.rows).rev() {
        rule(out, image, i);
    }
}

fn and_algorithm(out: &mut Listing, pair: Pair)
    ensures { Writes (and_text pair) out.old out.new }
{
    match pair {
        Pair::MinMax => out.puts(b"MIN"),
        Pair::ProdAsum => out.puts(b"PROD"),
        Pair::BdifBsum => out.puts(b"BDIF"),
    }
}

fn or_algorithm(out: &mut Listing, pair: Pair)
    ensures { Writes (or_text pair) out.old out.new }
{
    match pair {
        Pair::MinMax => out.puts(b"MAX"),
        Pair::ProdAsum => out.puts(b"ASUM"),
        Pair::BdifBsum => out.puts(b"BSUM"),
    }
}

fn activation(out: &mut Listing, act: Activation)
    ensures { Writes (act_text act) out.old out.new }
{
    match act {
        Activation::Min => out.puts(b"MIN"),
        Activation::Prod => out.puts(b"PROD"),
    }
}

fn accumulation(out: &mut Listing, accu: Accumulation)
    ensures { Writes (accu_text accu) out.old out.new }
{
    match accu {
        Accumulation::Max => out.puts(b"MAX"),
        Accumulation::Bsum => out.puts(b"BSUM"),
    }
}

#[tactic(auto, using(listing_writer::proofs::Prepends::parts), unfolding(model::specs::Listing::rule_block_text, model::specs::Image::decode))]
pub fn rule_block(out: &mut Listing, image: &CheckedImage)
    ensures { Writes (rule_block_text (decode (word_at image.now.stored.bytes.now))) out.old out.new }
{
    let stored = &image.stored;
    let pair = stored.pair();
    out.puts(b"END_RULEBLOCK\n");
    rules(out, image);
    out.puts(b";\n");
    accumulation(out, stored.accumulation());
    out.puts(b";\n  ACCU : ");
    activation(out, stored.activation());
    out.puts(b";\n  ACT : ");
    or_algorithm(out, pair);
    out.puts(b";\n  OR : ");
    and_algorithm(out, pair);
    out.puts(b"\n  AND : ");
    name(out, stored.bytes, RULE_BLOCK_NAME);
    out.puts(b"RULEBLOCK ");
}
