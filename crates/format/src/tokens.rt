// The tokens that stand at the front of bytes, one after the other.
ghost use Rattle.std.specs.Prelude.{◌≡◌, ℕ, List, length, reverse, nat_lt, position};
ghost use Rattle.std.specs.List.{fold};
ghost use Rattle.format.specs.Tokens.{more_by, Reads, TakesToken, Ends, operator_at};

use crate::tag;
use crate::token::Token;
use std::marker::Model;
use words::operator::Operator;

// Where the number at the front has its last byte.
#[inline(always)]
fn last_of(text: &[u8]) -> Option<usize>
    ensures { result ≡ position (λ b. nat_lt b 128) text.now }
{
    text.iter().position(|byte| *byte < tag::BASE)
}

// What the bytes of a number say, the first of which counts least.
#[inline(always)]
fn value_of(digits: &[u8]) -> u64
    ensures { result ≡ fold more_by 0 (reverse digits.now) }
{
    digits.iter().rev().fold(0, |value: u64, byte| {
        value
            .saturating_mul(tag::BASE as u64)
            .saturating_add(*byte as u64)
    })
}

/// Takes the number at the front away, held down to the largest u64; None, and nothing is taken, where none ends.
#[inline(always)]
pub fn number(rest: &mut &[u8]) -> Option<u64>
    ensures { Reads rest.old.now result rest.new.now }
{
    let last = last_of(rest)?;
    let (digits, after) = rest.split_at(last + 1);
    *rest = after;
    Some(value_of(digits))
}

// The operator of a tag; no `TryFrom`, since both `TryFrom` and `Operator` are of crates below.
#[tactic(auto, unfolding(crate::specs::Tokens::operator_at))]
#[inline(always)]
fn operator(tag: u8) -> Option<Operator>
    ensures { result ≡ operator_at tag }
{
    Some(match tag {
        tag::ADD => Operator::Add,
        tag::SUB => Operator::Sub,
        tag::MUL => Operator::Mul,
        tag::MUL_HIGH => Operator::MulHigh,
        tag::DIV => Operator::Div,
        tag::REM => Operator::Rem,
        tag::AND => Operator::And,
        tag::OR => Operator::Or,
        tag::XOR => Operator::Xor,
        tag::SHIFT_RIGHT => Operator::ShiftRight,
        tag::SHIFT_LEFT => Operator::ShiftLeft,
        tag::SHIFT_SIGNED => Operator::ShiftSigned,
        tag::LESS_SIGNED => Operator::LessSigned,
        tag::LESS => Operator::Less,
        tag::EQUAL => Operator::Equal,
        _ => return None,
    })
}

// A token at the front is taken away.
#[tactic(auto, unfolding(crate::specs::Tokens::lex, crate::specs::Tokens::count, crate::specs::Tokens::token_of, crate::specs::Tokens::operator_at))]
#[inline(always)]
fn token(rest: &mut &[u8]) -> Option<Token>
    ensures { TakesToken rest.old.now result rest.new.now }
{
    let (tag, after) = rest.split_first()?;
    *rest = after;
    Some(match *tag {
        tag::END => Token::End,
        tag::WORD => Token::Word(number(rest)?),
        tag::VAR => Token::Var(number(rest)?),
        tag::LOAD => Token::Load(number(rest)?),
        tag::CHOICE => Token::Choice,
        tag::SET => Token::Set(number(rest)?),
        tag::STORE => Token::Store(number(rest)?),
        tag::IF => Token::If,
        tag::WHILE => Token::While,
        tag::CALL => Token::Call(number(rest)?),
        tag::FROM => Token::From(number(rest)?, number(rest)?),
        tag::TO => Token::To(number(rest)?),
        tag::FUNCTION => Token::Function(number(rest)?, number(rest)?),
        other => Token::Operator(operator(other)?),
    })
}

/// The tokens at the front of a text, one after the other; a contract sees the bytes that are left.
#[derive(Drop)]
pub struct Tokens<'a> {
    rest: &'a [u8],
}

impl<'a> Model for Tokens<'a> {
    ghost Value = { List ℕ };

    ghost view = { λ t. t.rest.now };
}

impl<'a> Tokens<'a> {
    /// The tokens of a text, from its first byte on.
    pub fn new(text: &'a [u8]) -> Tokens<'a>
        ensures { result ≡ text.now }
    {
        Tokens { rest: text }
    }

    /// Takes the byte that ends a list away, if it is next; otherwise takes nothing.
    pub fn end(&mut self) -> bool
        ensures { Ends self.old result self.new }
    {
        match self.rest {
            [tag::END, rest @ ..] => {
                self.rest = rest;
                true
            }
            _ => false,
        }
    }

    /// The bytes that are left.
    pub fn rest(&self) -> &'a [u8]
        ensures { result.now ≡ self.now }
    {
        self.rest
    }
}

impl Iterator for Tokens<'_> {
    type Item = Token;

    ghost use Rattle.std.specs.Prelude.{length};
    ghost use Rattle.std.specs.Iterator.{at_most};
    ghost use Rattle.format.specs.Tokens.{Lexed};

    ghost next_gives = { Lexed };

    ghost remaining = { λ t. at_most (length t) };

    /// Takes a token with its numbers away, each capped at the largest u64.
    /// `None` takes nothing: no bytes are left, or no tag is first, or they end within a number.
    #[tactic(auto, using(crate::proofs::Digits::lex_shorter))]
    fn next(&mut self) -> Option<Token> {
        let mut rest = self.rest;
        let found = token(&mut rest)?;
        self.rest = rest;
        Some(found)
    }
}
