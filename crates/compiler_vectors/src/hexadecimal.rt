// Bytes from hexadecimal digits.
use std::alloc::{AllocError, Global};

// What is no digit counts as 0.
fn digit(b: u8) -> u32 {
    char::from(b).to_digit(16).unwrap_or(0)
}

// A last digit that stands alone is left out.
pub fn bytes(alloc: Global, digits: &[u8]) -> Result<Vec<u8>, AllocError> {
    let mut out = Vec::new(alloc);
    for pair in digits.chunks_exact(2) {
        let b = digit(pair[0]).wrapping_mul(16).wrapping_add(digit(pair[1]));
        out.push((b & 0xff) as u8)?;
    }
    Ok(out)
}
