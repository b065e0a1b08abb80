// Arguments and results that fit, by blocks of functions in a fixed table.
ghost use Rattle.std.specs.Prelude.{◌≡◌};
ghost use Rattle.refusals.specs.Arity.{First, noted, entry, Loaded, Arities};

use crate::event::{Event, Events};
use crate::pass::{Check, over_events};
use format::token::Token;
use format::tokens::Tokens;
use model::limits::MAX_ARGUMENTS;

// How many functions a table holds.
const BLOCK: usize = 65536;

// How many arguments and results a function has.
#[derive(Clone, Copy, PartialEq, Eq, Debug)]
struct Arity {
    arguments: u8,
    results: u8,
}

impl Arity {
    ghost use Rattle.refusals.specs.Arity.{arity_of};

    // What a header says, unless it is too much.
    fn new(arguments: u64, results: usize) -> Option<Arity>
        ensures { result ≡ arity_of arguments results }
    {
        if arguments > MAX_ARGUMENTS as u64 || results > MAX_ARGUMENTS as usize {
            return None;
        }
        Some(Arity {
            arguments: arguments as u8,
            results: results as u8,
        })
    }
}

// Whether there is a first function, and it has no arguments.
fn first_fits(text: &[u8]) -> bool
    ensures { First text.now result }
{
    let Some(Token::Function(arguments, _)) = Tokens::new(text).next() else {
        return false;
    };
    arguments == 0
}

// Notes a function, if it is in the block from `start` on.
fn note(table: &mut [Arity; BLOCK], start: usize, function: usize, arity: Arity)
    ensures { table.new ≡ noted start function arity table.old }
{
    if let Some(at) = function.checked_sub(start)
        && at < BLOCK
    {
        table[at] = arity;
    }
}

// Notes the functions of the block from `start` on, unless some function has too many arguments or results. No `Check`
// and no chain: a check that holds a `&mut` tells its lender nothing after `run`, and a chain leaves its goals open.
fn load(text: &[u8], start: usize, table: &mut [Arity; BLOCK]) -> Option<()>
    ensures { Loaded text.now start table.old result table.new }
{
    let mut begun = 0;
    for event in Events::new(text) {
        if let Event::Header(arguments, results) = event {
            note(table, start, begun, Arity::new(arguments, results)?);
            begun += 1;
        }
    }
    Some(())
}

// Whether calls of the functions of a block fit them.
#[derive(Drop)]
struct Fitting<'a> {
    start: usize,
    table: &'a [Arity; BLOCK],
}

impl Fitting<'_> {
    // What the table says of a function, if it is in the block.
    fn entry(&self, function: u64) -> Option<Arity>
        ensures { result ≡ entry self.now.start self.now.table.now function }
    {
        let at = function.checked_sub(self.start as u64)?;
        let table = self.table;
        table.get(at as usize).copied()
    }
}

impl Check<Event> for Fitting<'_> {
    type Found = ();

    ghost use Rattle.std.specs.Prelude.{◌^◌};
    ghost use Rattle.refusals.specs.Tests.{told};
    ghost use Rattle.refusals.specs.Arity.{in_table, every};

    ghost makes = { λ c vs. told (every (in_table c.start c.table.now) vs) tt };

    ghost room = { λ c. 2 ^ 64 };

    fn step(&mut self, event: Event) -> Option<()> {
        if let Event::Call(function, arguments, results) = event
            && let Some(arity) = self.entry(function)
            && (arguments != arity.arguments as usize || results != arity.results as usize)
        {
            return None;
        }
        Some(())
    }

    fn finish(self) {}
}

/// Whether the program that the text is, of so many functions, begins with a function without arguments, no function has
/// more than 8 arguments or results, and every call has as many as its function.
pub fn arities(text: &[u8], functions: usize) -> Option<()>
    ensures { Arities text.now functions result }
{
    if !first_fits(text) {
        return None;
    }
    let mut table = [Arity {
        arguments: 0,
        results: 0,
    }; BLOCK];
    for start in (0..functions).step_by(BLOCK) {
        load(text, start, &mut table)?;
        let fitting = Fitting {
            start,
            table: &table,
        };
        over_events(fitting, text)?;
    }
    Some(())
}
