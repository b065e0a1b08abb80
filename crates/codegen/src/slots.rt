// Registers to slots and back, one after the other.
ghost use Rattle.std.specs.Prelude.{◌≡◌, ◌+◌, ◌<◌, ◌≤◌};
ghost use Rattle.codegen.specs.Coding.{Came, Same, Moves, EmitsV};
ghost use Rattle.codegen.specs.Commands.{slots_from};
ghost use Rattle.codegen.specs.Transfers.{transfer_of, transfers};
ghost use Rattle.riscv.specs.Encoding.{Fits};

use crate::code::Code;
use crate::limits::reduced;
use crate::registers::{REGISTERS, SLOTS, load_slot, store_slot};
use format::token::Token;
use format::tokens::Tokens;
use riscv::instruction::Instruction;

/// Which way a word goes between a register and a slot. No closure: contracts have to say which instruction it makes.
#[derive(Clone, Copy, PartialEq, Eq, Debug)]
pub enum Transfer {
    // from a slot to a register
    Load,
    // from a register to a slot
    Store,
}

impl Transfer {
    // The instruction that moves a word between the register and the slot.
    fn between(self, register: u8, slot: u32) -> Instruction
        requires { (register < 32) × (slot < 1024) }
        ensures is { result ≡ transfer_of self register slot }
        ensures fits { Fits result }
    {
        match self {
            Transfer::Load => load_slot(register, slot),
            Transfer::Store => store_slot(register, slot),
        }
    }
}

/// `count` slots from `slot` on, and as many registers from `register` on.
pub fn slots(code: &mut Code, way: Transfer, register: u8, slot: u32, count: u32)
    requires { (register + count ≤ 32) × (slot + count < 1024) }
    ensures came { Came (transfers way (slots_from slot count) register) code.old code.new }
    ensures same { Same code.old code.new }
{
    for k in 0..count {
        code.put(way.between(register + k as u8, slot + k));
    }
}

/// The variables of a list, up to its end, and registers from `first` on, as far as there are some.
#[tactic(auto, using(format::proofs::Rests::rest_and, format::proofs::Rests::rest_lex))]
pub fn variables(tokens: &mut Tokens, code: &mut Code, way: Transfer, first: u8)
    requires { first ≤ 32 }
    ensures emits { EmitsV way first tokens.old tokens.new code.old code.new }
    ensures moves { Moves tokens.old tokens.new code.old code.new }
{
    for register in first..REGISTERS {
        let Some(Token::Var(x)) = tokens.next() else {
            return;
        };
        code.put(way.between(register, reduced(x, SLOTS)));
    }
    tokens.end();
}
