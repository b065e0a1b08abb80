// Why nothing came of it, as it is told on standard error.
use crate::command_line::Mistake;
use refusals::refusal::{Numbered, Refusal};
use std::io;
use thiserror::Error;

#[derive(Debug, Drop, Error)]
pub enum Failure<'a> {
    #[error("yongidra: {0}; see yongidra --help")]
    Usage(#[from] Mistake),
    // of the file with this name, or of what else is named so
    #[error("yongidra: {0}: {1}")]
    Io(&'a str, io::Error),
    #[error("{numbered}: {words}", numbered = Numbered(*.0), words = .0)]
    Refused(Refusal),
}
