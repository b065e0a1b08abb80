// Words, sizes, doors and forms in range, and the size of a program.
ghost use Rattle.std.specs.Prelude.{◌≡◌};
ghost use Rattle.model.specs.Promise.{good_size};
ghost use Rattle.refusals.specs.Tests.{range_t, size_t, Ranges};

use crate::pass::{Check, over_tokens};
use crate::refusal::Stage;
use format::token::Token;
use model::limits::{DOORS, MAX_VARIABLES, WORDS};

fn good_size(n: u64) -> bool
    ensures { result ≡ good_size n }
{
    matches!(n, 1 | 2 | 4)
}

fn in_range(stage: Stage, token: Token) -> bool
    ensures { result ≡ range_t stage token }
{
    match token {
        Token::Word(n) => n < WORDS,
        Token::Load(n) | Token::Store(n) => good_size(n),
        Token::While => stage.loops,
        Token::Call(_) => stage.calls,
        Token::From(_, door) | Token::To(door) => stage.doors && door < DOORS,
        Token::Function(_, variables) => variables <= MAX_VARIABLES,
        _ => true,
    }
}

// What a token adds to the size: one, unless it ends a list.
fn weight(token: Token) -> usize
    ensures { result ≡ size_t token }
{
    match token {
        Token::End => 0,
        _ => 1,
    }
}

// Whether all is in range so far, and how large it is.
#[derive(Drop)]
struct InRange {
    stage: Stage,
    size: usize,
}

impl Check<Token> for InRange {
    type Found = usize;

    ghost use Rattle.std.specs.Prelude.{◌+◌, ◌-◌, ◌^◌};
    ghost use Rattle.refusals.specs.Tests.{told, ranged, sized};

    ghost makes = { λ c ts. told (ranged c.stage ts) (c.size + sized ts) };

    ghost room = { λ c. 2 ^ 64 - 1 - c.size };

    fn step(&mut self, token: Token) -> Option<()> {
        if !in_range(self.stage, token) {
            return None;
        }
        self.size += weight(token);
        Some(())
    }

    fn finish(self) -> usize {
        self.size
    }
}

/// The size of the program that the text is, if all of it is in range.
pub fn ranges(text: &[u8], stage: Stage) -> Option<usize>
    ensures { Ranges text.now stage result }
{
    over_tokens(InRange { stage, size: 0 }, text)
}
