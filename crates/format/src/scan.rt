// A flat scan: where bytes cease to be a program.
ghost use Rattle.format.specs.Scan.{Scanned};

use crate::expected::Expected;

/// Whether the text is a program, or else the first byte at which it can't be the beginning of one.
pub fn scan(text: &[u8]) -> Result<(), usize>
    ensures { Scanned text.now result }
{
    let mut expected = Expected::PROGRAM;
    for (i, byte) in text.iter().enumerate() {
        expected.take(*byte).ok_or(i)?;
    }
    if expected == Expected::NOTHING {
        Ok(())
    } else {
        Err(text.len())
    }
}
