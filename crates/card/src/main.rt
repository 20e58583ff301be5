// Program `card`: reads a sign table, an image and a query from standard input, and writes the merged formula as a card or `refused` and its number.
#![tactic(auto)]

use std::io;

fn main(rt: HostRuntime) -> io::Result<()> {
    let mut input = [0u8; 65537];
    let mut graph = [0u16; 32768];
    let mut pairs = [0u32; 1536];
    let mut work = [0u64; 65536];
    let mut flow = [0u64; 256];
    let mut terms = [0u32; 66562];
    let mut runs = [0u64; 65536];
    let mut out = [0u8; 65537];
    let n = streams::read_full(&mut rt.reader(), &mut input)?;
    let k = card_answer::respond(
        &input[..n],
        &mut graph,
        &mut pairs,
        &mut work,
        &mut flow,
        &mut terms,
        &mut runs,
        &mut out,
    );
    streams::write_front(&mut io::writer(&rt), &out, k)
}
