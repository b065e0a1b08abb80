// yongidra FILE: compiles the program in a file, and prints the stack that its code needs and the code.
#![tactic(auto)]

mod command_line;
mod failure;
mod listing;

use command_line::{Request, parse};
use compiler::answer::Answer;
use compiler::{MOST_WORDS, compile};
use failure::Failure;
use listing::{image, listing};
use std::io::Write;
use std::process::ExitCode;
use std::rt::{Env, Files};
use std::{env, fs, io};

const VERSION: &str = "yongidra 0.1.0";

const HELP: &str =
    "yongidra compiles a program for a sluice board to RISC-V code (RV32I with mul, mulhu, divu, remu).

usage: yongidra [-o IMAGE] FILE

The bytes of FILE are a program. Each line printed is a word in eight hexadecimal digits: first the bytes of stack that
the code needs, then the code, which stands from address 0 on.

  -o IMAGE     write the code to IMAGE, four bytes for each word, the low one first, and print only the stack
  -h, --help   print this
  -V, --version

A program that is refused is named on standard error, with its number and place, and the status is 1.
";

// The stack and the code go to standard output.
fn list(rt: &(impl Print + AllocGlobal), stack: u32, code: &[u32]) -> io::Result<()> {
    io::writer(rt).write_all(&listing(rt.alloc(), stack, code)?)
}

// The code goes to a file.
fn store(rt: &(impl Files + AllocGlobal), code: &[u32], path: &str) -> io::Result<()> {
    fs::write(rt, path, &image(rt.alloc(), code)?)
}

// Of what is printed by itself the status alone tells that it did not come out.
fn status(printed: io::Result<()>) -> ExitCode {
    match printed {
        Ok(()) => ExitCode::SUCCESS,
        Err(_) => ExitCode::FAILURE,
    }
}

fn deliver<'a>(
    rt: &(impl Print + Files + AllocGlobal),
    stack: u32,
    code: &[u32],
    image: Option<&'a str>,
) -> Result<ExitCode, Failure<'a>> {
    let Some(path) = image else {
        list(rt, stack, code).map_err(|e| Failure::Io("standard output", e))?;
        return Ok(ExitCode::SUCCESS);
    };
    store(rt, code, path).map_err(|e| Failure::Io(path, e))?;
    Ok(status(println!(rt; "{stack:08x}")))
}

// Not inlined: the tables of the checks are on its stack, and what compiles nothing needs no room for them.
#[inline(never)]
fn compile_file<'a>(
    rt: &(impl Print + Files + AllocGlobal),
    program: &'a str,
    image: Option<&'a str>,
) -> Result<ExitCode, Failure<'a>> {
    let text = fs::read(rt, program).map_err(|e| Failure::Io(program, e))?;
    let room = vec![in rt.alloc(); 0u32; MOST_WORDS];
    let mut code = room.map_err(|e| Failure::Io(program, e.into()))?;
    match compile(&text, &mut code) {
        Answer::Refused(refusal) => Err(Failure::Refused(refusal)),
        Answer::NoRoom(_) => unreachable!(),
        Answer::Compiled(stack, words) => deliver(rt, stack, &code[..words], image),
    }
}

fn run<'a>(
    rt: &(impl Print + Files + AllocGlobal),
    args: &'a [String],
) -> Result<ExitCode, Failure<'a>> {
    match parse(args)? {
        Request::Help => Ok(status(rt.print(HELP))),
        Request::Version => Ok(status(rt.println(VERSION))),
        Request::Compile { program, image } => compile_file(rt, program, image),
    }
}

// What stands after the program's own name.
fn arguments(rt: &(impl Env + AllocGlobal)) -> io::Result<Vec<String>> {
    Ok(env::args(rt)?.skip(1).collect(rt.alloc())?)
}

fn main(rt: HostRuntime) -> ExitCode {
    let args = arguments(&rt);
    let done = match &args {
        Ok(args) => run(&rt, args),
        Err(e) => Err(Failure::Io("command line", *e)),
    };
    match done {
        Ok(status) => status,
        Err(failure) => {
            let _ = rt.eprintln(failure);
            ExitCode::FAILURE
        }
    }
}
