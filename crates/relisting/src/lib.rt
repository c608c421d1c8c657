// Lists an image and reads the listing again: an accepted image comes back byte for byte, whatever the buffers held.
#![tactic(auto)]

ghost use Rattle.std.specs.Prelude.{◌≡◌, ◌<◌, length};
ghost use Rattle.model.specs.Refusals.{refusal_of};
ghost use Rattle.relisting.specs.Relists.{relists, answer_of, without_listing, listing_after, image_after};

use model::Refusal;

// The image is not accepted, or which buffer is too short and what it needs.
#[derive(Clone, Copy, PartialEq, Eq)]
pub enum NotRelisted {
    NotAccepted,
    ImageTooShort(usize),
    ListingTooShort(usize),
}

// Without room for the image.
fn without_room(img: &[u8], room: usize, text: usize) -> Result<usize, NotRelisted>
    requires { room < length img.now }
    ensures { result ≡ answer_of (relists text room img.now) }
{
    match load::check(img) {
        Ok(()) => Err(NotRelisted::ImageTooShort(img.len())),
        Err(_) => Err(NotRelisted::NotAccepted),
    }
}

// By the lister's refusal: the one for its buffer has the length that is needed, the other has no place.
fn without_listing(why: Refusal) -> Result<usize, NotRelisted>
    ensures { result ≡ without_listing (refusal_of why) }
{
    match refusals::number_and_place(why).place {
        Some(needed) => Err(NotRelisted::ListingTooShort(needed)),
        None => Err(NotRelisted::NotAccepted),
    }
}

// The listing goes into one buffer, the image that it reads to into another; the length of the listing. Both are left as
// they came unless both have room.
pub fn relist(img: &[u8], text: &mut [u8], out: &mut [u8]) -> Result<usize, NotRelisted>
    ensures value { result
        ≡ answer_of (relists (length text.old) (length out.old) img.now) }
    ensures listing { text.new ≡ listing_after text.old
        (relists (length text.old) (length out.old) img.now) }
    ensures image { out.new ≡ image_after out.old
        (relists (length text.old) (length out.old) img.now) }
{
    if out.len() < img.len() {
        return without_room(img, out.len(), text.len());
    }
    match lister::list(img, text) {
        Ok(n) => {
            let _ = reader::read(&text[..n], out);
            Ok(n)
        }
        Err(why) => without_listing(why),
    }
}

#[cfg(test)]
mod tests;
