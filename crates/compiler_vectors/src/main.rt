// Compiles the programs in the lines of the input, each its bytes in hexadecimal, and prints what comes out.
// A line that begins with # is printed as it is. tests/vectors/compiled.py, which has a compiler of its own, makes the
// lines and what is expected of them.
#![tactic(auto)]

mod code;
mod hexadecimal;

use code::{UNUSED, listing, untouched};
use compiler::answer::Answer;
use compiler::compile;
use hexadecimal::bytes;
use refusals::refusal::Numbered;
use std::io;
use std::io::{BufRead, BufReader};

// Words to spare, and fewer words than any code has.
const SPARE: usize = 8;

const TOO_FEW: usize = 4;

// Room for one word less than the code has: it is told how many it has, and nothing is written.
fn show_no_room(rt: &(impl Print + AllocGlobal), text: &[u8], room: usize) -> io::Result<()> {
    let mut code = vec![in rt.alloc(); UNUSED; room]?;
    match compile(text, &mut code) {
        Answer::NoRoom(words) if untouched(&code) => println!(rt; "no room {words} untouched"),
        Answer::NoRoom(words) => println!(rt; "no room {words} written nevertheless"),
        _ => println!(rt; "an answer other than no room"),
    }
}

// Room to spare: the same code, and what stands after it is as it was.
fn show_spare(rt: &(impl Print + AllocGlobal), text: &[u8], code: &[u32]) -> io::Result<()> {
    let mut longer = vec![in rt.alloc(); UNUSED; code.len()]?;
    longer.extend_from_slice(&[UNUSED; SPARE])?;
    let Answer::Compiled(_, words) = compile(text, &mut longer) else {
        return println!(rt; "not compiled with room to spare");
    };
    let Some((front, rest)) = longer.split_at_checked(words) else {
        return println!(rt; "more words than there is room");
    };
    if front == code && untouched(rest) {
        println!(rt; "the same with room to spare")
    } else {
        println!(rt; "other words with room to spare")
    }
}

// A program that has code of so many words.
fn show_code(rt: &(impl Print + AllocGlobal), text: &[u8], words: usize) -> io::Result<()> {
    let mut code = vec![in rt.alloc(); UNUSED; words]?;
    let Answer::Compiled(stack, length) = compile(text, &mut code) else {
        return println!(rt; "not compiled into {words} words");
    };
    let list = listing(rt.alloc(), &code)?;
    println!(rt; "compiled {stack} {length}{list}")?;
    show_spare(rt, text, &code)?;
    show_no_room(rt, text, words.saturating_sub(1))
}

// At first there is room for no code, so that the answer is how long it is, or a refusal.
fn show(rt: &(impl Print + AllocGlobal), text: &[u8]) -> io::Result<()> {
    let mut room = [UNUSED; TOO_FEW];
    let answer = compile(text, &mut room);
    if !untouched(&room) {
        println!(rt; "written nevertheless")?;
    }
    match answer {
        Answer::Refused(refusal) => println!(rt; "{}", Numbered(refusal)),
        Answer::NoRoom(words) => show_code(rt, text, words),
        Answer::Compiled(_, words) => println!(rt; "compiled into {words} words"),
    }
}

fn main(rt: HostRuntime) -> io::Result<()> {
    for line in BufReader::new(rt.alloc(), rt.stdin())?.lines(rt.alloc()) {
        let line = line?;
        if line.starts_with('#') {
            rt.println(line.as_str())?;
            continue;
        }
        let text = bytes(rt.alloc(), line.as_bytes())?;
        show(&rt, &text)?;
    }
    Ok(())
}
