// One pass of a check over items, one after the other.
ghost use Rattle.std.specs.Prelude.{◌≡◌, ℕ, ◌+◌, ◌<◌, ◌≤◌, List, [], ◌∷◌, Option, length};
ghost use Rattle.std.specs.Iterator.{IsFinite, size};
ghost use Rattle.refusals.specs.Pass.{Goes, Ran};
ghost use Rattle.refusals.specs.Events.{events_p};
ghost use Rattle.model.specs.Source.{Program};
ghost use Rattle.model.specs.Promise.{program};
ghost use Rattle.format.specs.Format.{read};
ghost use Rattle.format.specs.Tokens.{tokens};

use crate::event::{Event, Events};
use format::token::Token;
use format::tokens::Tokens;

/// A check: what it has counted so far.
pub trait Check<T>: Drop {
    type Found;

    // What it makes of the items that are to come; nothing, where it refuses them.
    ghost makes: { Self → List T → Option Self.Found };

    // How many more items its counters can take.
    ghost room: { Self → ℕ };

    // One item more, unless it is refused.
    fn step(&mut self, item: T) -> Option<()>
        requires { 0 < room self.old }
        ensures goes { Goes makes self.old item result self.new }
        ensures room { room self.old ≤ room self.new + 1 };

    // What was found, after the last item.
    fn finish(self) -> Self::Found
        ensures { makes self [] ≡ Some result };
}

/// What a check makes of all items.
pub fn run<T, C: Check<T>, I: Iterator<Item = T>>(mut check: C, items: I) -> Option<C::Found>
    requires can { I.can_next items }
    requires ends { IsFinite (I.remaining items) }
    requires room { size (I.remaining items) ≤ C.room check }
    ensures { Ran I.next_gives C.makes items check result }
{
    for item in items {
        check.step(item)?;
    }
    Some(check.finish())
}

/// What a check makes of the tokens of a program.
pub fn over_tokens<C: Check<Token>>(check: C, text: &[u8]) -> Option<C::Found>
    requires { length text.now ≤ C.room check }
    ensures { (p : Program) → read text.now ≡ program p → result ≡ C.makes check (tokens p) }
{
    run(check, Tokens::new(text))
}

/// What a check makes of the events of a program.
pub fn over_events<C: Check<Event>>(check: C, text: &[u8]) -> Option<C::Found>
    requires { length text.now ≤ C.room check }
    ensures { (p : Program) → read text.now ≡ program p → result ≡ C.makes check (events_p p) }
{
    run(check, Events::new(text))
}
