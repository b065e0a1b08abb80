// Prints what each operator makes of edges; tests/vectors/operators.c, a program of its own, makes what is expected.
#![tactic(auto)]

use std::io;
use words::operator::Operator;

static EDGES: [u32; 10] = [
    0,
    1,
    31,
    32,
    33,
    0x7fff_ffff,
    0x8000_0000,
    0x8000_0001,
    0xffff_ffff,
    0x1234_5678,
];

fn show(rt: &impl Print, o: Operator) -> io::Result<()> {
    for a in &EDGES {
        for b in &EDGES {
            let r = o.apply(*a, *b);
            println!(rt; "{o} {a:08x} {b:08x} {r:08x}")?;
        }
    }
    Ok(())
}

fn main(rt: HostRuntime) -> io::Result<()> {
    for o in Operator::ALL {
        show(&rt, o)?;
    }
    Ok(())
}
