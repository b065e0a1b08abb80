// Code as text, a word in a line, and as bytes.
ghost use Rattle.std.specs.Prelude.{◌≡◌, ◌++◌, IfOk};
ghost use Rattle.std.specs.List.{flat_map};
ghost use Rattle.yongidra.specs.Listing.{bytes_of, line_of};

use hex::encode_to_slice;
use std::alloc::{AllocError, Global};

// The hexadecimal digits of a word, two for each byte.
const DIGITS: usize = 8;

const LINE: usize = DIGITS + 1;

// Eight hexadecimal digits, the highest first, and the end of the line.
#[tactic(auto, using(crate::proofs::Digits::encode_word))]
pub fn line(w: u32) -> [u8; LINE]
    ensures { result ≡ line_of w }
{
    let mut line = [b'\n'; LINE];
    encode_to_slice(w.to_be_bytes(), &mut line[..DIGITS]).unwrap();
    line
}

// The stack and then each word of code, a line each.
pub fn listing(alloc: Global, stack: u32, code: &[u32]) -> Result<Vec<u8>, AllocError>
    ensures { IfOk result (λ text. text.items ≡ line_of stack ++ flat_map line_of code.now) }
{
    let mut text = line(stack).to_vec(alloc)?;
    for w in code {
        text.extend_from_slice(&line(*w))?;
    }
    Ok(text)
}

// The code as it is stored on a board: four bytes for each word, the low one first.
pub fn image(alloc: Global, code: &[u32]) -> Result<Vec<u8>, AllocError>
    ensures { IfOk result (λ bytes. bytes.items ≡ flat_map bytes_of code.now) }
{
    let mut bytes = Vec::new(alloc);
    for w in code {
        bytes.extend_from_slice(&w.to_le_bytes())?;
    }
    Ok(bytes)
}
