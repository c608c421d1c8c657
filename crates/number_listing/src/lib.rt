// Numbers as a listing prints them, each written from its last digit to its first.
#![tactic(auto)]

ghost use Rattle.std.specs.Prelude.{◌≡◌, ◌+◌, ◌<◌};
ghost use Rattle.model.specs.Listing.{digits, trimmed, after_point, thousandths_text, crisp_text, unit_text};
ghost use Rattle.listing_writer.specs.Prepends.{Writes};
ghost use Rattle.number_listing.specs.LastDigits.{last_digit, last_two, last_three};

use listing_writer::Listing;
use model::{Crisp, Degree};

fn digit(d: usize) -> u8
    requires { d < 10 }
    ensures { result ≡ 48 + d }
{
    b'0' + d as u8
}

// The decimal digits of a number.
pub fn digits(out: &mut Listing, n: usize)
    ensures { Writes (digits n) out.old out.new }
{
    let mut m = n;
    while 10 <= m {
        out.put(digit(m % 10));
        m /= 10;
    }
    out.put(digit(m));
}

// The last digit, without a zero.
fn last_digit(out: &mut Listing, n: usize)
    ensures { Writes (trimmed (last_digit n)) out.old out.new }
{
    if n % 10 != 0 {
        out.put(digit(n % 10));
    }
}

// The last two digits, without the zeros at their end.
fn last_two(out: &mut Listing, n: usize)
    ensures { Writes (trimmed (last_two n)) out.old out.new }
{
    if n % 100 != 0 {
        last_digit(out, n);
        out.put(digit(n / 10 % 10));
    }
}

// The point and the three digits behind it, without the zeros at their end.
fn fraction(out: &mut Listing, n: usize)
    ensures { Writes (after_point (trimmed (last_three n))) out.old out.new }
{
    if n % 1000 != 0 {
        last_two(out, n);
        out.put(digit(n / 100 % 10));
        out.put(b'.');
    }
}

#[tactic(auto, using(listing_writer::proofs::Prepends::parts), unfolding(model::specs::Listing::thousandths_text))]
pub fn thousandths(out: &mut Listing, n: usize)
    ensures { Writes (thousandths_text n) out.old out.new }
{
    fraction(out, n);
    digits(out, n / 1000);
}

pub fn crisp(out: &mut Listing, x: Crisp)
    ensures { Writes (crisp_text x.0) out.old out.new }
{
    thousandths(out, x.0.unsigned_abs() as usize);
    if x.0 < 0 {
        out.put(b'-');
    }
}

// A degree or a weight.
pub fn unit(out: &mut Listing, d: Degree)
    ensures { Writes (unit_text d.0) out.old out.new }
{
    thousandths(out, (d.0 / 1000) as usize);
}
