// Calls of functions that come after the caller.
ghost use Rattle.refusals.specs.Events.{Follows};

use crate::event::Event;
use crate::pass::{Check, over_events};

// How many functions have begun, of so many.
#[derive(Drop)]
struct Forward {
    functions: usize,
    begun: usize,
}

impl Check<Event> for Forward {
    type Found = ();

    ghost use Rattle.std.specs.Prelude.{◌-◌, ◌^◌};
    ghost use Rattle.refusals.specs.Tests.{told};
    ghost use Rattle.refusals.specs.Events.{later};

    ghost makes = { λ c vs. told (later c.functions c.begun vs) tt };

    ghost room = { λ c. 2 ^ 64 - 1 - c.begun };

    fn step(&mut self, event: Event) -> Option<()> {
        match event {
            Event::Header(_, _) => self.begun += 1,
            Event::Call(function, _, _) => {
                if !(self.begun as u64..self.functions as u64).contains(&function) {
                    return None;
                }
            }
        }
        Some(())
    }

    fn finish(self) {}
}

/// Whether every call of the program that the text is, of so many functions, is of a later one.
pub fn follows(text: &[u8], functions: usize) -> Option<()>
    ensures { Follows text.now functions result }
{
    over_events(
        Forward {
            functions,
            begun: 0,
        },
        text,
    )
}
