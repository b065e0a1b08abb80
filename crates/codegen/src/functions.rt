// The code of functions, and of a program.
ghost use Rattle.std.specs.Prelude.{◌≡◌, ◌+◌, ◌≤◌};
ghost use Rattle.codegen.specs.Coding.{Came, Same, Moves};
ghost use Rattle.codegen.specs.Layouts.{EmitsPrologue, EmitsLeave, EmitsF, Lays, EmitsP};
ghost use Rattle.codegen.specs.Functions.{zero_slots};

use crate::code::{Code, JUMPS};
use crate::commands::commands;
use crate::frame::Frame;
use crate::limits::reduced;
use crate::registers::{
    FIRST_ARGUMENT, FRAME, IMMEDIATES, RETURN, SCRATCH, VALUE, WORD, ZERO, load_slot, store_slot,
};
use crate::slots::{Transfer, slots, variables};
use format::token::Token;
use format::tokens::Tokens;
use model::limits::{MAX_DEPTH, MAX_FUNCTIONS, WORDS};
use riscv::instruction::{Condition, ImmediateOp, Instruction, StoreOp};

/// What is known of a program's code before it is written.
#[derive(Clone, Copy, PartialEq, Eq, Debug)]
pub struct Layout {
    // words of code
    pub words: usize,
    // bytes of stack
    pub stack: u32,
}

// 0 to the first `count` slots, by a loop, since there may be 256 of them.
#[tactic(auto, unfolding(crate::specs::Functions::zero_slots))]
fn zero(code: &mut Code, count: u32)
    requires { count ≤ 256 }
    ensures came { Came (zero_slots count) code.old code.new }
    ensures same { Same code.old code.new }
{
    let past_loop = 4 * WORD;
    let to_loop = JUMPS - 4 * WORD;
    code.put_all(&[
        Instruction::Immediate(ImmediateOp::Addi, VALUE, FRAME, 0),
        Instruction::Immediate(ImmediateOp::Addi, SCRATCH, FRAME, WORD * count),
        Instruction::Branch(Condition::Ne, VALUE, SCRATCH, 2 * WORD),
        Instruction::Jal(ZERO, past_loop),
        Instruction::Store(StoreOp::Sw, ZERO, VALUE, 0),
        Instruction::Immediate(ImmediateOp::Addi, VALUE, VALUE, WORD),
        Instruction::Jal(ZERO, to_loop),
    ]);
}

fn prologue(code: &mut Code, frame: Frame)
    ensures came { EmitsPrologue frame code.old code.new }
    ensures same { Same code.old code.new }
{
    let down = IMMEDIATES - frame.bytes();
    code.put(Instruction::Immediate(ImmediateOp::Addi, FRAME, FRAME, down));
    code.put(store_slot(RETURN, frame.return_slot()));
    zero(code, frame.variables as u32);
    let arguments = frame.arguments as u32;
    slots(code, Transfer::Store, FIRST_ARGUMENT, 0, arguments);
}

// The frame is given back, and it goes back to the caller.
fn leave(code: &mut Code, frame: Frame)
    ensures came { EmitsLeave frame code.old code.new }
    ensures same { Same code.old code.new }
{
    code.put_all(&[
        load_slot(RETURN, frame.return_slot()),
        Instruction::Immediate(ImmediateOp::Addi, FRAME, FRAME, frame.bytes()),
        Instruction::Jalr(ZERO, RETURN, 0),
    ]);
}

// A function after its head: the results stand before the body, and are read again after it.
fn function(tokens: &mut Tokens, code: &mut Code, starts: &[u32], frame: Frame)
    ensures emits { EmitsF starts.now frame tokens.old tokens.new code.old code.new }
    ensures moves { Moves tokens.old tokens.new code.old code.new }
{
    prologue(code, frame);
    let results = tokens.rest();
    let mut none = Code::new(&mut []);
    variables(tokens, &mut none, Transfer::Load, FIRST_ARGUMENT);
    commands(tokens, code, starts, frame.variables as u32, MAX_DEPTH);
    let mut results = Tokens::new(results);
    variables(&mut results, code, Transfer::Load, FIRST_ARGUMENT);
    leave(code, frame);
}

/// How long the code of a program is, how much stack it needs, and where each function begins: its code is made and let go.
pub fn lay_out(text: &[u8], starts: &mut [u32; MAX_FUNCTIONS]) -> Layout
    ensures { Lays text.now starts.new result }
{
    let mut tokens = Tokens::new(text);
    let mut code = Code::new(&mut []);
    let mut stack = 0;
    for start in starts.iter_mut() {
        let Some(Token::Function(arguments, variables)) = tokens.next() else {
            break;
        };
        *start = reduced(code.len() as u64, WORDS);
        let frame = Frame::of(arguments, variables);
        function(&mut tokens, &mut code, &[], frame);
        stack += frame.bytes();
    }
    Layout {
        words: code.len(),
        stack,
    }
}

/// The code of a program, where each function begins being known.
pub fn emit(text: &[u8], words: &mut [u32], starts: &[u32]) -> usize
    ensures { EmitsP starts.now text.now result words.old words.new }
{
    let mut tokens = Tokens::new(text);
    let mut code = Code::new(words);
    while let Some(Token::Function(arguments, variables)) = tokens.next() {
        function(
            &mut tokens,
            &mut code,
            starts,
            Frame::of(arguments, variables),
        );
    }
    code.len()
}
