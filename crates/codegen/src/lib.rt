// The code of a program: from its bytes to words of the machine.
#![tactic(auto)]

pub mod code;
pub mod commands;
pub mod expressions;
pub mod frame;
pub mod functions;
pub mod limits;
pub mod registers;
pub mod slots;
