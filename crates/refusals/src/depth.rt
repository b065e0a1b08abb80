// Depth, with a counter for each level.
ghost use Rattle.std.specs.Prelude.{◌≡◌, ◌<◌, ◌≤◌, [], ◌∷◌, length, true};
ghost use Rattle.refusals.specs.Depth.{done, ended, Pushed, WithinDepth};

use crate::pass::{Check, over_tokens};
use arrayvec::ArrayVec;
use format::token::Token;
use model::limits::MAX_DEPTH;
use std::marker::Model;

// Levels that may be open at once.
const LEVELS: usize = MAX_DEPTH as usize;

// The levels that are open, and how many parts each still has to come; contracts see them as a list, the innermost first.
#[derive(Drop)]
struct Levels {
    counts: ArrayVec<u8, LEVELS>,
}

impl Model for Levels {
    ghost use Rattle.std.specs.Prelude.{ℕ, List, reverse};

    ghost Value = { List ℕ };

    ghost view = { λ l. reverse l.counts.items };
}

impl Levels {
    fn new() -> Levels
        ensures { result ≡ [] }
    {
        Levels {
            counts: ArrayVec::new(),
        }
    }

    // One more part is there: the levels all of whose parts are there end, each a part of the one outside it.
    fn settle(&mut self)
        ensures { self.new ≡ done self.old }
    {
        while let Some(parts) = self.counts.last_mut() {
            if *parts > 1 {
                *parts -= 1;
                return;
            }
            self.counts.pop();
        }
    }

    // One more part is at its end.
    fn close(&mut self)
        ensures { self.new ≡ ended self.old }
    {
        if let Some(parts) = self.counts.last_mut() {
            if *parts > 1 {
                *parts -= 1;
            } else {
                self.counts.pop();
            }
        }
    }

    // One more level, of so many parts, unless it is one too many.
    fn open(&mut self, parts: u8) -> Option<()>
        ensures { Pushed self.old parts result self.new }
    {
        self.counts.try_push(parts).ok()
    }
}

// The levels of expressions and of blocks, and how many lists are still to end: one of a function, two of a call.
#[derive(Drop)]
struct Nesting {
    exprs: Levels,
    blocks: Levels,
    lists: u8,
}

impl Check<Token> for Nesting {
    type Found = ();

    ghost use Rattle.refusals.specs.Tests.{told};
    ghost use Rattle.refusals.specs.Depth.{deep_ts};
    ghost use Rattle.std.specs.Prelude.{◌-◌, ◌^◌};

    ghost makes = { λ c ts. told (deep_ts c.exprs c.blocks c.lists ts) tt };

    ghost room = { λ c. 2 ^ 64 };

    #[tactic(auto, unfolding(crate::specs::Depth::deep_ts))]
    fn step(&mut self, token: Token) -> Option<()> {
        match token {
            Token::End if self.lists > 0 => self.lists -= 1,
            Token::End => self.blocks.close(),
            Token::Word(_) | Token::Var(_) => self.exprs.settle(),
            Token::Load(_) => self.exprs.open(1)?,
            Token::Operator(_) => self.exprs.open(2)?,
            Token::Choice => self.exprs.open(3)?,
            Token::If => self.blocks.open(2)?,
            Token::While => self.blocks.open(1)?,
            Token::Call(_) => self.lists = 2,
            Token::Function(_, _) => self.lists = 1,
            Token::Set(_) | Token::Store(_) | Token::From(_, _) | Token::To(_) => {}
        }
        Some(())
    }

    #[tactic(auto, unfolding(crate::specs::Depth::deep_ts))]
    fn finish(self) {}
}

/// Whether the program that the text is goes at most 32 levels deep.
pub fn shallow(text: &[u8]) -> bool
    ensures { WithinDepth text.now result }
{
    let check = Nesting {
        exprs: Levels::new(),
        blocks: Levels::new(),
        lists: 0,
    };
    over_tokens(check, text).is_some()
}
