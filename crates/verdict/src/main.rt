// Reads images from standard input, each behind its length in 4 bytes, and writes a line for each: `accepted`, `refused` and its number, or `refused 10 class` and the lowest class that holds a literal that also stands in another.
#![tactic(auto)]

use judge::{Verdict, judge};
use std::io;

fn decimal(rt: &impl Print, n: usize) -> io::Result<()> {
    rt.print(numbers::long_size(n))
}

fn say(rt: &impl Print, v: Verdict) -> io::Result<()> {
    match v {
        Verdict::Accepted(_) => {
            rt.write_all(b"accepted")?;
        }
        Verdict::Refused(n) => {
            rt.write_all(b"refused ")?;
            decimal(rt, numbers::size_u8(n))?;
        }
        Verdict::Doubled(c) => {
            rt.write_all(b"refused 10 class ")?;
            decimal(rt, c)?;
        }
    }
    rt.write_all(b"\n")
}

// the images in the first n bytes
fn each(rt: &impl Print, s: &[u8]) -> io::Result<()> {
    let mut at = 0;
    // no range: a cursor that goes on behind the image that was read
    while at + 4 <= s.len() {
        let from = at + 4;
        let n = numbers::size_u64(image::be4(s, at));
        if n > s.len() - from {
            return Ok(());
        }
        say(rt, judge(&s[from..from + n]))?;
        at = from + n;
    }
    Ok(())
}

fn main(rt: HostRuntime) -> io::Result<()> {
    let mut input = [0u8; 65536];
    let n = streams::read_full(&mut rt.reader(), &mut input)?;
    each(&rt, &input[..n])
}
