// The end of a text that came in chunks.
#![tactic(auto)]

ghost use Rattle.model.specs.Chunks.{finished, Link};

use model::Refusal;

// The end of the text, which is read into the buffer.
pub fn finish(store: &[u8], count: &mut usize, out: &mut [u8]) -> Result<usize, Refusal>
    ensures { Link (record { store = store.now; count = count.old })
        (finished out.old result out.new
        (record { store = store.now; count = count.new })) }
{
    let n = *count;
    if chunk_store::is_over(store, n) {
        return Err(Refusal::TextOver);
    }
    *count = chunk_store::OVER;
    reader::read(&store[..n], out)
}
