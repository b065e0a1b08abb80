// The code of expressions.
ghost use Rattle.std.specs.Prelude.{◌≡◌, ◌+◌, ◌%◌, ◌<◌};
ghost use Rattle.codegen.specs.Coding.{Came, Same, Moves, Emits};
ghost use Rattle.codegen.specs.Expressions.{code_e, code_op, load_of};
ghost use Rattle.codegen.specs.Selection.{register_op_of};
ghost use Rattle.model.specs.Source.{word};
ghost use Rattle.words.specs.Operators.{op_of};

use crate::code::Code;
use crate::limits::reduced;
use crate::registers::{SCRATCH, SLOTS, VALUE, halves, load_slot, store_slot};
use format::token::Token;
use format::tokens::Tokens;
use model::limits::WORDS;
use riscv::instruction::{ImmediateOp, Instruction, LoadOp, RegisterOp};
use words::operator::Operator;

// A word comes in two parts, of which the lower one has a sign.
#[tactic(auto, unfolding(crate::specs::Expressions::code_e))]
fn word(code: &mut Code, v: u64)
    ensures came { Came (code_e 0 (word (v % 4294967296))) code.old code.new }
    ensures same { Same code.old code.new }
{
    let (upper, lower) = halves(v % WORDS);
    code.put_all(&[
        Instruction::Lui(VALUE, upper),
        Instruction::Immediate(ImmediateOp::Addi, VALUE, VALUE, lower),
    ]);
}

// The table of `load_of`, as `store_op` is that of `store_of`: an enum of sizes between them would be a third.
#[tactic(auto, unfolding(crate::specs::Expressions::load_of, model::specs::Words::pick))]
fn load_op(size: u64) -> LoadOp
    ensures { result ≡ load_of size }
{
    match size {
        1 => LoadOp::Lbu,
        2 => LoadOp::Lhu,
        _ => LoadOp::Lw,
    }
}

// No `From`: which instruction an operator has is the choice made here, and riscv knows nothing of it.
fn register_op(o: Operator) -> RegisterOp
    ensures { result ≡ register_op_of o }
{
    match o {
        Operator::Add => RegisterOp::Add,
        Operator::Sub => RegisterOp::Sub,
        Operator::Mul => RegisterOp::Mul,
        Operator::MulHigh => RegisterOp::Mulhu,
        Operator::Div => RegisterOp::Divu,
        Operator::Rem => RegisterOp::Remu,
        Operator::And => RegisterOp::And,
        Operator::Or => RegisterOp::Or,
        Operator::Xor => RegisterOp::Xor,
        Operator::ShiftRight => RegisterOp::Srl,
        Operator::ShiftLeft => RegisterOp::Sll,
        Operator::ShiftSigned => RegisterOp::Sra,
        Operator::LessSigned => RegisterOp::Slt,
        Operator::Less => RegisterOp::Sltu,
        Operator::Equal => RegisterOp::Sub,
    }
}

// An operator on the scratch register and the value register.
fn operator(code: &mut Code, o: Operator)
    ensures came { Came (code_op (op_of o)) code.old code.new }
    ensures same { Same code.old code.new }
{
    code.put(Instruction::Register(register_op(o), VALUE, SCRATCH, VALUE));
    if let Operator::Equal = o {
        code.put(Instruction::Immediate(ImmediateOp::Sltiu, VALUE, VALUE, 1));
    }
}

/// The next expression, its value to the value register; slots from `temp` on are free.
#[tactic(auto, using(format::proofs::Rests::rest_and, format::proofs::Rests::rest_lex))]
pub fn expression(tokens: &mut Tokens, code: &mut Code, temp: u32, depth: u32)
    requires { temp + depth < 1024 }
    ensures emits { Emits temp depth tokens.old tokens.new code.old code.new }
    ensures moves { Moves tokens.old tokens.new code.old code.new }
{
    let Some(token) = tokens.next() else {
        return;
    };
    // Leaves need no depth. Two matches: in one, with a guard, the goals of its arms stay open.
    match token {
        Token::Word(v) => return word(code, v),
        Token::Var(x) => return code.put(load_slot(VALUE, reduced(x, SLOTS))),
        _ => {}
    }
    if depth == 0 {
        return;
    }
    match token {
        Token::Load(size) => {
            expression(tokens, code, temp, depth - 1);
            code.put(Instruction::Load(load_op(size), VALUE, VALUE, 0));
        }
        Token::Operator(o) => {
            expression(tokens, code, temp, depth - 1);
            code.put(store_slot(VALUE, temp));
            expression(tokens, code, temp + 1, depth - 1);
            code.put(load_slot(SCRATCH, temp));
            operator(code, o);
        }
        Token::Choice => {
            expression(tokens, code, temp, depth - 1);
            let otherwise = code.jump_if_zero();
            expression(tokens, code, temp, depth - 1);
            let end = code.jump();
            code.land(otherwise);
            expression(tokens, code, temp, depth - 1);
            code.land(end);
        }
        _ => {}
    }
}
