// The code of commands.
ghost use Rattle.std.specs.Prelude.{◌≡◌, ℕ, List, ◌+◌, ◌*◌, ◌%◌, ◌<◌, ◌≤◌};
ghost use Rattle.codegen.specs.Commands.{call_at, store_of};
ghost use Rattle.codegen.specs.Coding.{by_table, Came, Same, Moves, EmitsEs, EmitsAfter, EmitsCs};
ghost use Rattle.format.specs.declared.token.Token.TheVariants.{Store, Call, If, While};

use crate::code::Code;
use crate::expressions::expression;
use crate::limits::reduced;
use crate::registers::{
    FIRST_ARGUMENT, RETURN, SCRATCH, SLOTS, VALUE, WORD, halves, load_slot, store_slot,
};
use crate::slots::{Transfer, slots, variables};
use format::token::Token;
use format::tokens::Tokens;
use model::limits::{DOORS, MAX_ARGUMENTS, MAX_DEPTH};
use riscv::instruction::{Instruction, LoadOp, StoreOp};

// Doors stand from 2^30 on: the upper part of that.
const DOORS_UPPER: u32 = (1 << 30) >> 12;

#[tactic(auto, unfolding(crate::specs::Commands::store_of, model::specs::Words::pick))]
fn store_op(size: u64) -> StoreOp
    ensures { result ≡ store_of size }
{
    match size {
        1 => StoreOp::Sb,
        2 => StoreOp::Sh,
        _ => StoreOp::Sw,
    }
}

// The arguments of a list, up to its end, each to a slot from `temp` on; there are at most eight. Here and below `temp` is
// a number with a bound and no type of its own, which would be made once and taken apart at each slot.
#[tactic(auto, using(format::proofs::Rests::rest_and, format::proofs::Rests::rest_end))]
fn arguments(tokens: &mut Tokens, code: &mut Code, temp: u32) -> u32
    requires { temp < 512 }
    ensures emits { EmitsEs temp result tokens.old tokens.new code.old code.new }
    ensures moves { Moves tokens.old tokens.new code.old code.new }
    ensures few { result ≤ 8 }
{
    let mut count = 0;
    // No `for` over the count: the end of the list is taken first, and it may stand after the last.
    'list: while !tokens.end() {
        if count == MAX_ARGUMENTS {
            return count;
        }
        expression(tokens, code, temp + count, MAX_DEPTH);
        code.put(store_slot(VALUE, temp + count));
        count += 1;
    }
    count
}

// Where the function `g` begins, by the table.
fn start_of(starts: &[u32], g: u64) -> u32
    ensures { result ≡ by_table starts.now g }
{
    starts.get(g as usize).copied().unwrap_or(0)
}

// To where the function `g` begins, and back after it.
fn jump_to(code: &mut Code, starts: &[u32], g: u64)
    ensures came { Came (call_at (by_table starts.now g)) code.old code.new }
    ensures same { Same code.old code.new }
{
    let (upper, lower) = halves(WORD as u64 * start_of(starts, g) as u64);
    code.put_all(&[
        Instruction::Lui(SCRATCH, upper),
        Instruction::Jalr(RETURN, SCRATCH, lower),
    ]);
}

// How far the door `d` is from the first one.
fn door(d: u64) -> u32
    ensures { result ≡ 4 * (d % 256) }
{
    WORD * reduced(d, DOORS)
}

// A store after its first token: the address waits in a slot.
fn store(tokens: &mut Tokens, code: &mut Code, temp: u32, size: u64)
    requires { temp < 512 }
    ensures emits { (ss : List ℕ) (k : ℕ) → EmitsAfter (Store size) ss temp k tokens.old tokens.new code.old code.new }
    ensures moves { Moves tokens.old tokens.new code.old code.new }
{
    expression(tokens, code, temp, MAX_DEPTH);
    code.put(store_slot(VALUE, temp));
    expression(tokens, code, temp + 1, MAX_DEPTH);
    code.put(load_slot(SCRATCH, temp));
    code.put(Instruction::Store(store_op(size), VALUE, SCRATCH, 0));
}

// A call after its first token.
fn call(tokens: &mut Tokens, code: &mut Code, starts: &[u32], temp: u32, g: u64)
    requires { temp < 512 }
    ensures emits { (k : ℕ) → EmitsAfter (Call g) starts.now temp k tokens.old tokens.new code.old code.new }
    ensures moves { Moves tokens.old tokens.new code.old code.new }
{
    let count = arguments(tokens, code, temp);
    slots(code, Transfer::Load, FIRST_ARGUMENT, temp, count);
    jump_to(code, starts, g);
    variables(tokens, code, Transfer::Store, FIRST_ARGUMENT);
}

// An if after its first token.
#[cycle(commands)]
fn conditional(tokens: &mut Tokens, code: &mut Code, starts: &[u32], temp: u32, depth: u32)
    requires { temp < 512 }
    ensures emits { EmitsAfter If starts.now temp depth tokens.old tokens.new code.old code.new }
    ensures moves { Moves tokens.old tokens.new code.old code.new }
{
    if depth == 0 {
        return;
    }
    expression(tokens, code, temp, MAX_DEPTH);
    let otherwise = code.jump_if_zero();
    commands(tokens, code, starts, temp, depth - 1);
    let end = code.jump();
    code.land(otherwise);
    commands(tokens, code, starts, temp, depth - 1);
    code.land(end);
}

// A while after its first token.
#[cycle(commands)]
fn repeated(tokens: &mut Tokens, code: &mut Code, starts: &[u32], temp: u32, depth: u32)
    requires { temp < 512 }
    ensures emits { EmitsAfter While starts.now temp depth tokens.old tokens.new code.old code.new }
    ensures moves { Moves tokens.old tokens.new code.old code.new }
{
    if depth == 0 {
        return;
    }
    let start = code.len();
    expression(tokens, code, temp, MAX_DEPTH);
    let end = code.jump_if_zero();
    commands(tokens, code, starts, temp, depth - 1);
    code.jump_back(start);
    code.land(end);
}

// A command after its first token.
#[cycle(commands)]
fn command(
    token: Token,
    tokens: &mut Tokens,
    code: &mut Code,
    starts: &[u32],
    temp: u32,
    depth: u32,
)
    requires { temp < 512 }
    ensures emits { EmitsAfter token starts.now temp depth tokens.old tokens.new code.old code.new }
    ensures moves { Moves tokens.old tokens.new code.old code.new }
{
    match token {
        Token::Set(x) => {
            expression(tokens, code, temp, MAX_DEPTH);
            code.put(store_slot(VALUE, reduced(x, SLOTS)));
        }
        Token::Store(size) => store(tokens, code, temp, size),
        Token::If => conditional(tokens, code, starts, temp, depth),
        Token::While => repeated(tokens, code, starts, temp, depth),
        Token::Call(g) => call(tokens, code, starts, temp, g),
        Token::From(x, d) => code.put_all(&[
            Instruction::Lui(SCRATCH, DOORS_UPPER),
            Instruction::Load(LoadOp::Lw, VALUE, SCRATCH, door(d)),
            store_slot(VALUE, reduced(x, SLOTS)),
        ]),
        Token::To(d) => {
            expression(tokens, code, temp, MAX_DEPTH);
            code.put_all(&[
                Instruction::Lui(SCRATCH, DOORS_UPPER),
                Instruction::Store(StoreOp::Sw, VALUE, SCRATCH, door(d)),
            ]);
        }
        _ => {}
    }
}

/// Commands, up to their end.
#[cycle(commands)]
pub fn commands(tokens: &mut Tokens, code: &mut Code, starts: &[u32], temp: u32, depth: u32)
    requires { temp < 512 }
    ensures emits { EmitsCs starts.now temp depth tokens.old tokens.new code.old code.new }
    ensures moves { Moves tokens.old tokens.new code.old code.new }
{
    while let Some(token) = tokens.next() {
        if let Token::End = token {
            return;
        }
        command(token, tokens, code, starts, temp, depth);
    }
}
