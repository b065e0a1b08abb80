// Prints, for each word in a line of the input, the instruction that it is decoded to, or that there is none.
// Words and instructions are an assembler's and a disassembler's: tests/vectors/instructions.py makes both files.
#![tactic(auto)]

use riscv::decoding::decode;
use riscv::encoding::encode;
use riscv::instruction::Instruction;
use std::io;
use std::io::{BufRead, BufReader};

fn show(rt: &impl Print, w: u32, i: Instruction) -> io::Result<()> {
    match i {
        Instruction::Lui(rd, imm) => println!(rt; "{w:08x} lui {rd} {imm}"),
        Instruction::Auipc(rd, imm) => println!(rt; "{w:08x} auipc {rd} {imm}"),
        Instruction::Jal(rd, imm) => println!(rt; "{w:08x} jal {rd} {imm}"),
        Instruction::Jalr(rd, rs1, imm) => println!(rt; "{w:08x} jalr {rd} {rs1} {imm}"),
        Instruction::Branch(q, rs1, rs2, imm) => println!(rt; "{w:08x} {q} {rs1} {rs2} {imm}"),
        Instruction::Load(o, rd, rs1, imm) => println!(rt; "{w:08x} {o} {rd} {rs1} {imm}"),
        Instruction::Store(o, rs2, rs1, imm) => println!(rt; "{w:08x} {o} {rs2} {rs1} {imm}"),
        Instruction::Immediate(o, rd, rs1, imm) => println!(rt; "{w:08x} {o} {rd} {rs1} {imm}"),
        Instruction::Shift(o, rd, rs1, n) => println!(rt; "{w:08x} {o} {rd} {rs1} {n}"),
        Instruction::Register(o, rd, rs1, rs2) => println!(rt; "{w:08x} {o} {rd} {rs1} {rs2}"),
    }
}

fn main(rt: HostRuntime) -> io::Result<()> {
    for line in BufReader::new(rt.alloc(), rt.stdin())?.lines(rt.alloc()) {
        let line = line?;
        let Ok(w) = u32::from_str_radix(line.as_str(), 16) else {
            println!(rt; "not a word")?;
            continue;
        };
        match decode(w) {
            None => println!(rt; "{w:08x} none")?,
            Some(i) => {
                if encode(i) != w {
                    println!(rt; "{w:08x} encoded to another word")?;
                }
                show(&rt, w, i)?;
            }
        }
    }
    Ok(())
}
