// The lister: a stored image to its text, or the refusal by number.
#![tactic(auto, using(crate::proofs::Answers::not_listed), unfolding(load::specs::Judged::Judged))]

ghost use Rattle.std.specs.Prelude.{◌≡◌, length};
ghost use Rattle.model.specs.Outcome.{length_in, buffer_after};
ghost use Rattle.model.specs.Refusals.{written_of};
ghost use Rattle.model.specs.Buffers.{lists_into};

use block_listing::block;
use listing_writer::Listing;
use load::examine;
use model::Refusal;

// The listing of the image into the buffer: its length, or the refusal, which leaves the buffer as it came.
pub fn list(img: &[u8], out: &mut [u8]) -> Result<usize, Refusal>
    ensures result_value { written_of result ≡ length_in (lists_into (length out.old) img.now) }
    ensures buffer { out.new
        ≡ buffer_after out.old (lists_into (length out.old) img.now) }
{
    let image = examine(img)?;
    let mut text = [0u8; bounds::LISTING];
    let mut listing = Listing::new(&mut text);
    block(&mut listing, &image);
    let n = listing.count();
    if out.len() < n {
        return Err(Refusal::BufferTooShort(n));
    }
    out[..n].copy_from_slice(listing.text());
    Ok(n)
}
