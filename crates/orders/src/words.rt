// Words of 32 bits from bytes.
ghost use Rattle.orders.specs.Words.{IsWords};
ghost use Rattle.std.specs.Prelude.{IfOk};

use std::alloc::{AllocError, Global};

// The whole words of the bytes; one to three bytes at the end are no word.
pub fn words_of(bytes: &[u8], heap: Global) -> Result<Vec<u32>, AllocError>
    ensures { IfOk result (λ v. IsWords bytes.now v.items) }
{
    let (words, _) = bytes.as_chunks::<4>();
    words
        .iter()
        .map(|word| u32::from_be_bytes(*word))
        .collect(heap)
}
