// A text that comes in chunks: the host lends a store for its bytes and a number, 0 when a text begins.
#![tactic(auto)]

ghost use Rattle.std.specs.Prelude.{◌≡◌, not, ◌++◌, ◌+◌, ◌≤◌, length, take, drop};
ghost use Rattle.model.specs.Chunks.{is_open, appended, Link};

use model::Refusal;

// The number of a text that is over: one more than a text may have.
pub const OVER: usize = bounds::TEXT + 1;

// A store that does not hold every text, too, is taken for a text that is over.
pub fn is_over(store: &[u8], n: usize) -> bool
    ensures { result ≡ not (is_open (record { store = store.now; count = n })) }
{
    store.len() < bounds::TEXT || bounds::TEXT < n
}

// A chunk behind the first n bytes of the store.
fn put(store: &mut [u8], n: usize, chunk: &[u8])
    requires { n + length chunk.now ≤ length store.old }
    ensures { store.new ≡ take n store.old
        ++ (chunk.now ++ drop (n + length chunk.now) store.old) }
{
    let e = n + chunk.len();
    store[n..e].copy_from_slice(chunk);
}

// Bytes that have come, perhaps none.
pub fn append(chunk: &[u8], store: &mut [u8], count: &mut usize) -> Result<(), Refusal>
    ensures { Link (record { store = store.old; count = count.old })
        (appended chunk.now result (record { store = store.new; count = count.new })) }
{
    let n = *count;
    if is_over(store, n) {
        return Err(Refusal::TextOver);
    }
    if bounds::TEXT - n < chunk.len() {
        *count = OVER;
        return Err(Refusal::TextTooLong);
    }
    put(store, n, chunk);
    *count = n + chunk.len();
    Ok(())
}
