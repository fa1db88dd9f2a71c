// Putting a result into a caller's buffer.
ghost use Rattle.std.specs.Prelude.{◌≡◌, ℕ, List, length, IfOk, string_bytes};
ghost use Rattle.alike_c.specs.Placing.{Placed, put};

use std::alloc::AllocError;

// What every call returns where memory is wanting: no result is so long.
const NO_MEMORY: usize = usize::MAX;

// Puts the items at the head of the buffer where there is room for all of them, and tells how many they are.
fn place<T: Copy>(items: &[T], out: &mut [T]) -> usize
    ensures told { result ≡ length items.now }
    ensures after { out.new ≡ put items.now out.old }
{
    let count = items.len();
    if count <= out.len() {
        out[..count].copy_from_slice(items);
    }
    count
}

// A text, where memory is not wanting.
pub(crate) fn place_text(text: Result<String, AllocError>, out: &mut [u8]) -> usize
    ensures { (t : List ℕ) → IfOk text (λ s. string_bytes s ≡ t) → Placed t out.old out.new result }
{
    match text {
        Ok(text) => place(text.as_bytes(), out),
        Err(AllocError) => NO_MEMORY,
    }
}

// Words, where memory is not wanting.
pub(crate) fn place_words(words: Result<Vec<u32>, AllocError>, out: &mut [u32]) -> usize
    ensures { (t : List ℕ) → IfOk words (λ ws. ws.items ≡ t) → Placed t out.old out.new result }
{
    match words {
        Ok(words) => place(words.as_slice(), out),
        Err(AllocError) => NO_MEMORY,
    }
}
