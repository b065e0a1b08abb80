// Functions and calls, with how many arguments and results each has, from a flat scan over tokens.
ghost use Rattle.std.specs.Prelude.{◌≡◌};

use format::token::Token;
use format::tokens::Tokens;
use std::marker::Model;
use std::ops::ControlFlow::{self, Break, Continue};

#[derive(Clone, Copy, PartialEq, Eq, Debug)]
pub enum Event {
    // a function's arguments and results
    Header(u64, usize),
    // a call's function, arguments and results
    Call(u64, usize, usize),
}

/// Where a scan stands: a state that says what a token means, and so no closure.
#[derive(Clone, Copy, PartialEq, Eq, Debug)]
pub enum Mode {
    // among commands
    Body,
    // in a function's results: its arguments, the results so far
    Results(u64, usize),
    // in a call's arguments: its function, the arguments so far, the expressions still to come in the last
    Arguments(u64, usize, u128),
    // in a call's variables: its function, its arguments, the variables so far
    Variables(u64, usize, usize),
}

impl Mode {
    ghost use Rattle.std.specs.Prelude.{◌≡◌, ◌≤◌};
    ghost use Rattle.refusals.specs.Events.{up, Stepped, Counted};

    // An expression begins that has so many parts.
    fn begin(self, parts: u128) -> Mode
        requires { Counted self × (parts ≤ 3) }
        ensures { result ≡ up parts self }
    {
        match self {
            Mode::Body => Mode::Body,
            Mode::Results(arguments, results) => Mode::Results(arguments, results + 1),
            Mode::Arguments(function, arguments, 0) => {
                Mode::Arguments(function, arguments + 1, parts)
            }
            Mode::Arguments(function, arguments, open) => {
                Mode::Arguments(function, arguments, open - 1 + parts)
            }
            Mode::Variables(function, arguments, results) => {
                Mode::Variables(function, arguments, results + 1)
            }
        }
    }

    // A list ends.
    fn end(self) -> ControlFlow<Event, Mode>
        ensures { Stepped self Token.End result }
    {
        match self {
            Mode::Body => Continue(Mode::Body),
            Mode::Results(arguments, results) => Break(Event::Header(arguments, results)),
            Mode::Arguments(function, arguments, _) => {
                Continue(Mode::Variables(function, arguments, 0))
            }
            Mode::Variables(function, arguments, results) => {
                Break(Event::Call(function, arguments, results))
            }
        }
    }

    // One token more.
    fn advance(self, token: Token) -> ControlFlow<Event, Mode>
        requires { Counted self }
        ensures { Stepped self token result }
    {
        match token {
            Token::End => self.end(),
            Token::Word(_) | Token::Var(_) => Continue(self.begin(0)),
            Token::Load(_) => Continue(self.begin(1)),
            Token::Operator(_) => Continue(self.begin(2)),
            Token::Choice => Continue(self.begin(3)),
            Token::Call(function) => Continue(Mode::Arguments(function, 0, 0)),
            Token::Function(arguments, _) => Continue(Mode::Results(arguments, 0)),
            _ => Continue(self),
        }
    }
}

/// The functions and calls of a text, one after the other.
#[derive(Drop)]
pub struct Events<'a> {
    tokens: Tokens<'a>,
}

impl<'a> Model for Events<'a> {
    ghost use Rattle.std.specs.Prelude.{ℕ, List, length, ◌<◌, ◌^◌};

    ghost Value = { List ℕ };

    ghost view = { λ e. e.tokens };

    // every slice is shorter, so a count of its tokens stays below that
    ghost invariant = { λ e. length e.tokens < 2 ^ 64 };
}

impl<'a> Events<'a> {
    pub fn new(text: &'a [u8]) -> Events<'a>
        ensures { result ≡ text.now }
    {
        Events {
            tokens: Tokens::new(text),
        }
    }

    /// The bytes that are left; after an event, those from where it ended on.
    pub fn rest(&self) -> &'a [u8]
        ensures { result.now ≡ self.now }
    {
        self.tokens.rest()
    }
}

impl Iterator for Events<'_> {
    type Item = Event;

    ghost use Rattle.std.specs.Prelude.{length};
    ghost use Rattle.std.specs.Iterator.{at_most};
    ghost use Rattle.refusals.specs.Events.{Evented};

    ghost next_gives = { Evented };

    ghost remaining = { λ e. at_most (length e) };

    fn next(&mut self) -> Option<Event> {
        let mut mode = Mode::Body;
        // No `for`: it would lend the tokens out, and what is left of them is the answer.
        'scan: while let Some(token) = self.tokens.next() {
            match mode.advance(token) {
                Continue(next) => mode = next,
                Break(event) => return Some(event),
            }
        }
        None
    }
}
