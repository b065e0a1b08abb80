// The list of refusals: every text is refused by the first reason that applies, and by nothing else.
#![tactic(auto)]

pub mod arity;
pub mod calls;
pub mod depth;
pub mod event;
pub mod limit;
pub mod pass;
pub mod range;
pub mod refusal;
pub mod scope;

ghost use Rattle.format.specs.Format.{read};
ghost use Rattle.model.specs.Promise.{Limits};
ghost use Rattle.refusals.specs.Answer.{Listed, StageOf};

use crate::arity::arities;
use crate::calls::follows;
use crate::limit::limits;
use crate::range::ranges;
use crate::refusal::{Checked, Refusal, Stage};
use crate::scope::scopes;
use format::scan::scan;

/// Whether a stage refuses a text, and why; or what is known of the program.
pub fn check(text: &[u8], stage: Stage) -> Result<Checked, Refusal>
    ensures { (l : Limits) → StageOf stage l → Listed l (read text.now) result }
{
    if let Err(place) = scan(text) {
        return Err(Refusal::Malformed(place));
    }
    let Some(size) = ranges(text, stage) else {
        return Err(Refusal::Range);
    };
    let Some(functions) = scopes(text) else {
        return Err(Refusal::Variable);
    };
    let Some(()) = follows(text, functions) else {
        return Err(Refusal::Callee);
    };
    let Some(()) = arities(text, functions) else {
        return Err(Refusal::Arity);
    };
    let Some(checked) = limits(text, size, functions) else {
        return Err(Refusal::Limit);
    };
    Ok(checked)
}
