// Registers by their use, and the instructions that move words between them and the slots of a frame.
ghost use Rattle.std.specs.Prelude.{◌≡◌, ◌^◌, ◌<◌};
ghost use Rattle.codegen.specs.Frame.{load_slot, store_slot, upper, lower};
ghost use Rattle.riscv.specs.Encoding.{Fits};

use crate::limits::reduced;
use riscv::instruction::{Instruction, LoadOp, StoreOp};

pub const ZERO: u8 = 0;
/// Where a call comes back to.
pub const RETURN: u8 = 1;
/// Where the frame begins; nothing is kept below it.
pub const FRAME: u8 = 2;
/// The value of an expression.
pub const VALUE: u8 = 5;
/// The first operand, an address.
pub const SCRATCH: u8 = 6;
/// Arguments and results stand in eight registers from this one on.
pub const FIRST_ARGUMENT: u8 = 8;

pub const REGISTERS: u8 = 32;

/// Bytes of a slot, a door or an instruction.
pub const WORD: u32 = 4;
/// Immediates have 12 bits: one below 0 is taken from this.
pub const IMMEDIATES: u32 = 1 << 12;
/// Slots that an immediate reaches.
pub const SLOTS: u64 = (IMMEDIATES / WORD) as u64;
// upper parts of a word
const UPPERS: u64 = 1 << 20;
// lower parts of a word
const LOWERS: u64 = IMMEDIATES as u64;

/// A slot to a register.
pub fn load_slot(register: u8, slot: u32) -> Instruction
    requires { (register < 32) × (slot < 1024) }
    ensures is { result ≡ load_slot register slot }
    ensures fits { Fits result }
{
    Instruction::Load(LoadOp::Lw, register, FRAME, WORD * slot)
}

/// A register to a slot.
pub fn store_slot(register: u8, slot: u32) -> Instruction
    requires { (register < 32) × (slot < 1024) }
    ensures is { result ≡ store_slot register slot }
    ensures fits { Fits result }
{
    Instruction::Store(StoreOp::Sw, register, FRAME, WORD * slot)
}

/// A word in two parts: the upper 20 bits, one more where the sign of the lower 12 takes one away; and the lower 12.
pub fn halves(n: u64) -> (u32, u32)
    requires { n < 2 ^ 34 }
    ensures upper { result.0 ≡ upper n }
    ensures lower { result.1 ≡ lower n }
{
    (
        reduced((n + LOWERS / 2) / LOWERS, UPPERS),
        reduced(n, LOWERS),
    )
}
