// The frame of program `merge`'s input: an image, then left class (2 bytes), right class (2), budget (4); the line of a refusal; and what is printed of an answer.
#![tactic(auto)]

ghost use Rattle.std.specs.Prelude.{◌≡◌, true, ◌+◌, ◌≤◌, ◌<◌, length};
ghost use Rattle.spec.specs.Bytes as b;
ghost use Rattle.decimals.specs.Writing.{Wrote};
ghost use Rattle.frames.specs.Frame.{framed, query_of, refusal_bytes};
ghost use Rattle.frames.specs.Printing.{Prints};

use contract::Answer;
use image::{be2, be4};
use numbers::{long_size, short_u64, size_u8, size_u64};
use query::Query;
use spec::Caller;

// "a missing or overlong query, or input over 65,536 bytes, prints `refused 2`"
pub fn is_framed(input: &[u8]) -> bool
    ensures { result ≡ framed input.now }
{
    if input.len() > 65536 {
        return false;
    }
    if input.len() < 4 {
        return false;
    }
    be4(input, 0) + 12 == long_size(input.len())
}

// how many bytes are the image's
pub fn image_length(input: &[u8]) -> usize
    requires { framed input.now ≡ true }
    ensures { result ≡ b.be4 input.now 0 + 4 }
{
    size_u64(be4(input, 0)) + 4
}

fn narrow(x: usize) -> u16
    requires { x < 65536 }
    ensures { result ≡ x }
{
    x as u16
}

// the query behind the image: the desk's
pub fn query_of(input: &[u8]) -> Query
    requires { framed input.now ≡ true }
    ensures { result ≡ query_of input.now }
{
    let n = image_length(input);
    let left = narrow(be2(input, n));
    let right = narrow(be2(input, n + 2));
    let budget = short_u64(be4(input, n + 4));
    Query {
        left,
        right,
        budget,
        caller: Caller::Desk,
    }
}

// "A refusal prints `refused` and its number alone"
pub fn refusal(out: &mut [u8], k: u8) -> usize
    requires { 29 ≤ length out.old }
    ensures { Wrote (refusal_bytes k) out.old 0 out.new result }
{
    let n = long_size(size_u8(k));
    let a = decimals::labelled(out, 0, b"refused ", n);
    decimals::text(out, a, b"\n")
}

// The answer's bytes, at the output buffer's front: a listing stands there already.
pub fn print(out: &mut [u8], a: Answer) -> usize
    requires { 29 ≤ length out.old }
    ensures { Prints out.old out.new a result }
{
    match a {
        Answer::Listing(n) => n,
        Answer::Refused(k) => refusal(out, k),
        Answer::Doubled(c) => refusal(out, 10),
    }
}
