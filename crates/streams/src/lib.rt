//! Standard input and output with buffers of a fixed size: what every program of this repository reads and writes with.
#![tactic(auto)]

ghost use Rattle.std.specs.Prelude.{◌≤◌, ◌<◌, length, take, IfOk, OnOk};
ghost use Rattle.std.specs.Io.KnownBytes.{Appends, Consumes, Keeps, IsAtEnd};

use std::io;
use std::io::{Read, Write};

// Reads until the buffer is full or the input ends: how many bytes then stand at its front.
pub fn read_full<R: Read>(reader: &mut R, buf: &mut [u8]) -> io::Result<usize>
    ensures bound { IfOk result (λ n. n ≤ length buf.new) }
    ensures bytes { IfOk result (λ n. Consumes (R.remaining reader.old) (R.remaining reader.new) (take n buf.new)) }
    ensures end { IfOk result (λ n. n < length buf.new → IsAtEnd (R.remaining reader.new)) }
{
    let mut done = 0;
    // no range: a read gives as many bytes as it has
    while done < buf.len() {
        let n = reader.read(&mut buf[done..])?;
        if n == 0 {
            return Ok(done);
        }
        done += n;
    }
    Ok(done)
}

// Writes the buffer's first n bytes, and nothing where it has fewer.
pub fn write_front<W: Write>(writer: &mut W, buf: &[u8], n: usize) -> io::Result<()>
    ensures front { n ≤ length buf.now → OnOk result (Appends (W.contents writer.old) (W.contents writer.new) (take n buf.now)) }
    ensures nothing { length buf.now < n → Keeps (W.contents writer.old) (W.contents writer.new) }
{
    if n <= buf.len() {
        writer.write_all(&buf[..n])?;
    }
    Ok(())
}
