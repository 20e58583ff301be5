// Program `read_card`: reads a sign table and a card from standard input, and writes the lines of its term's listing or `refused` and its number.
#![tactic(auto)]

use std::io;

fn main(rt: HostRuntime) -> io::Result<()> {
    let mut input = [0u8; 65537];
    let mut frames = [0u64; 65536];
    let mut marks = [0u16; 32768];
    let mut terms = [0u32; 66562];
    let mut runs = [0u64; 65536];
    let mut out = [0u8; 65536];
    let n = streams::read_full(&mut rt.reader(), &mut input)?;
    let k = read_answer::respond(
        &input[..n],
        &mut frames,
        &mut marks,
        &mut terms,
        &mut runs,
        &mut out,
    );
    streams::write_front(&mut io::writer(&rt), &out, k)
}
