//! Words as assembly text.

ghost use Rattle.std.specs.Prelude.{◌≡◌, ◌++◌, ◌≤◌, ◌^◌, length, IfOk};
ghost use Rattle.rv_asm.specs.Laws.{ListingAssembles};
ghost use Rattle.rv_asm.specs.Listing.{listing_text};

use rv_line::{listing_is_line, listing_reads, put_line};
use stab_io::Bytes;
use std::alloc::{AllocError, Global};
use text_core::put_bytes;

/// The listing of at most 262,144 words, of which the first stands at address 0: for each word a line with its
/// instruction, or with `.word` where it is no instruction's, and behind a number sign its address and the word in
/// hexadecimal.
///
/// # Errors
///
/// `AllocError` where there is no memory for the text.
#[tactic(auto, unfolding(crate::specs::Listing::listing_text))]
pub fn listing(alloc: Global, words: &[u32]) -> Result<Bytes, AllocError>
    requires { length words.now ≤ 2 ^ 18 }
    ensures { IfOk result (λ text. text ≡ listing_text words.now) }
{
    let mut out = Vec::new(alloc);
    let mut address = 0;
    for word in words {
        put_line(&mut out, address, *word)?;
        put_bytes(&mut out, b"\n")?;
        address += 4;
    }
    Ok(Bytes::from_vec(out))
}

/// A listing assembles to the words that it lists. The function does nothing when it runs; its contract is the law.
pub fn listing_assembles()
    ensures { ListingAssembles }
{
    listing_is_line();
    listing_reads();
}
