// Program `replay`: reads frames and answers from standard input, each behind its length in 4 bytes, frame, answer, frame, answer .., and says how many answers are the bytes that program `merge` writes.
#![tactic(auto)]

ghost use Rattle.answer.specs.Responding.{Rooms};

use std::io;
use std::io::Read;

#[derive(Clone, Copy)]
pub enum Judged {
    Same,
    Other,
    End,
}

// whether the first k bytes are the answer
fn agrees(out: &[u8], k: usize, answer: &[u8]) -> bool {
    k <= out.len() && &out[..k] == answer
}

// reads a length and so many bytes to the buffer's front; where they are not there or too many: more than the buffer's length
fn read_record(reader: &mut impl Read, buffer: &mut [u8]) -> io::Result<usize> {
    let mut head = [0u8; 4];
    if streams::read_full(reader, &mut head)? < 4 {
        return Ok(buffer.len() + 1);
    }
    let n = image::be4(&head, 0) as usize;
    if n > buffer.len() {
        return Ok(buffer.len() + 1);
    }
    if streams::read_full(reader, &mut buffer[0..n])? < n {
        return Ok(buffer.len() + 1);
    }
    Ok(n)
}

// the next frame and its answer
fn judge_next(
    reader: &mut impl Read,
    input: &mut [u8],
    expected: &mut [u8],
    graph: &mut [u16],
    pairs: &mut [u32],
    work: &mut [u64],
    flow: &mut [u64],
    terms: &mut [u32],
    runs: &mut [u64],
    out: &mut [u8],
) -> io::Result<Judged>
    requires { Rooms graph.old pairs.old work.old flow.old terms.old runs.old out.old }
{
    let n = read_record(reader, input)?;
    if n > input.len() {
        return Ok(Judged::End);
    }
    let m = read_record(reader, expected)?;
    if m > expected.len() {
        return Ok(Judged::End);
    }
    let k = answer::respond(&input[0..n], graph, pairs, work, flow, terms, runs, out);
    if agrees(out, k, &expected[0..m]) {
        return Ok(Judged::Same);
    }
    Ok(Judged::Other)
}

fn say(rt: &impl Print, same: u64, all: u64) -> io::Result<()> {
    println!(rt; "{same} of {all}")
}

// at most a million frames
fn replay_all(
    rt: &(impl Input + Print),
    input: &mut [u8],
    expected: &mut [u8],
    graph: &mut [u16],
    pairs: &mut [u32],
    work: &mut [u64],
    flow: &mut [u64],
    terms: &mut [u32],
    runs: &mut [u64],
    out: &mut [u8],
) -> io::Result<()>
    requires { Rooms graph.old pairs.old work.old flow.old terms.old runs.old out.old }
{
    let mut reader = rt.reader();
    let mut same = 0;
    let mut all = 0;
    for _turn in 0..1000000u64 {
        let judged = judge_next(
            &mut reader,
            input,
            expected,
            graph,
            pairs,
            work,
            flow,
            terms,
            runs,
            out,
        )?;
        match judged {
            Judged::Same => {
                same += 1;
                all += 1;
            }
            Judged::Other => {
                all += 1;
            }
            Judged::End => {
                break;
            }
        }
    }
    say(rt, same, all)
}

fn main(rt: HostRuntime) -> io::Result<()> {
    let mut input = [0u8; 65537];
    let mut expected = [0u8; 65536];
    let mut graph = [0u16; 4352];
    let mut pairs = [0u32; 1536];
    let mut work = [0u64; 1024];
    let mut flow = [0u64; 256];
    let mut terms = [0u32; 3074];
    let mut runs = [0u64; 1024];
    let mut out = [0u8; 65536];
    replay_all(
        &rt,
        &mut input,
        &mut expected,
        &mut graph,
        &mut pairs,
        &mut work,
        &mut flow,
        &mut terms,
        &mut runs,
        &mut out,
    )
}
