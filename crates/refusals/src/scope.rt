// Variables that are there, and the number of functions.
ghost use Rattle.refusals.specs.Tests.{vars_t, scope_t, header_t, Scopes};
ghost use Rattle.std.specs.Prelude.{◌≡◌};

use crate::pass::{Check, over_tokens};
use format::token::Token;

// Whether the variables of a token are among so many.
fn in_scope(scope: u64, token: Token) -> bool
    ensures { result ≡ vars_t scope token }
{
    match token {
        Token::Var(x) | Token::Set(x) | Token::From(x, _) => x < scope,
        Token::Function(arguments, variables) => arguments <= variables,
        _ => true,
    }
}

// How many variables are there, and how many functions have begun.
#[derive(Drop)]
struct InScope {
    scope: u64,
    functions: usize,
}

impl Check<Token> for InScope {
    type Found = usize;

    ghost use Rattle.std.specs.Prelude.{◌+◌, ◌-◌, ◌^◌};
    ghost use Rattle.refusals.specs.Tests.{told, scoped, headers};

    ghost makes = { λ c ts. told (scoped c.scope ts) (c.functions + headers ts) };

    ghost room = { λ c. 2 ^ 64 - 1 - c.functions };

    fn step(&mut self, token: Token) -> Option<()> {
        if !in_scope(self.scope, token) {
            return None;
        }
        if let Token::Function(_, variables) = token {
            self.scope = variables;
            self.functions += 1;
        }
        Some(())
    }

    fn finish(self) -> usize {
        self.functions
    }
}

/// The number of functions of the program that the text is, if all its variables are there.
pub fn scopes(text: &[u8]) -> Option<usize>
    ensures { Scopes text.now result }
{
    over_tokens(
        InScope {
            scope: 0,
            functions: 0,
        },
        text,
    )
}
