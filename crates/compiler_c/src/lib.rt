// The compiler as an archive for programs in other languages: each function is the one of its name in the library `compiler`.
#![tactic(auto)]

ghost use Rattle.compiler.specs.Exported.{Exported, ExportedStack};

use compiler::export;

/// How many words of code were written; or a number below 0, and then nothing was: the refusal times 2^32 and its place,
/// 8 being want of room.
#[unsafe(no_mangle)]
pub extern "C" fn yongidra_compile(text: &[u8], code: &mut [u32]) -> i64
    ensures { Exported text.now code.old code.new result }
{
    export::yongidra_compile(text, code)
}

/// How many bytes of stack the code needs; or the refusal, as a number below 0.
#[unsafe(no_mangle)]
pub extern "C" fn yongidra_stack(text: &[u8]) -> i64
    ensures { ExportedStack text.now result }
{
    export::yongidra_stack(text)
}
