// A stored name, as a listing prints it.
#![tactic(auto)]

ghost use Rattle.std.specs.Prelude.{◌≤◌};
ghost use Rattle.model.specs.Image.{word_at, name_at};
ghost use Rattle.listing_writer.specs.Prepends.{Writes};

use bounds::NAME;
use listing_writer::Listing;
use name_field::{bytes_at, first_zero};

// The name in the four words from place o on.
pub fn name(out: &mut Listing, img: &[u8], o: usize)
    requires { o ≤ 900000000000 }
    ensures { Writes (name_at (word_at img.now) o) out.old out.new }
{
    let from = o * 4;
    if let Some(s) = img.get(from..from + NAME) {
        out.puts(&s[..first_zero(s)]);
    } else {
        let s = bytes_at(img, o);
        out.puts(&s[..first_zero(&s)]);
    }
}
