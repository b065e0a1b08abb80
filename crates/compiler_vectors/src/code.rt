// Words of code as text, and words that nothing was written to.
use std::alloc::Global;
use std::fmt;
use std::fmt::Write;

// No instruction has this word.
pub const UNUSED: u32 = 0xffff_ffff;

// Code is listed up to so many words, and else by its checksum.
const MOST_LISTED: usize = 60;

// The base of the checksum, and the largest prime below 2^32.
const BASE: u64 = 65_599;

const PRIME: u64 = 4_294_967_291;

pub fn untouched(words: &[u32]) -> bool {
    words.iter().all(|w| *w == UNUSED)
}

// The words as digits of a number, the first one highest, modulo the prime.
fn checksum(code: &[u32]) -> u64 {
    code.iter().fold(0u64, |sum, w| {
        sum.wrapping_mul(BASE).wrapping_add(u64::from(*w)) % PRIME
    })
}

// Short code word by word, and of longer code the checksum.
pub fn listing(alloc: Global, code: &[u32]) -> Result<String, fmt::Error> {
    let mut list = String::new(alloc);
    if code.len() > MOST_LISTED {
        let sum = checksum(code);
        write!(list, " checksum {sum:08x}")?;
        return Ok(list);
    }
    for w in code {
        write!(list, " {w:08x}")?;
    }
    Ok(list)
}
