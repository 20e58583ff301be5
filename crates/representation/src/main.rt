// Reads frames from standard input, each behind its length in 4 bytes, and writes the representation pairs of their classes, a line a pair: left class, right class, operation, left terms class:count, `|`, right terms.
// An image of at most 12 classes shows every two of its classes, another one the queried two. `refused` stands for a refused frame, and an empty line ends each.
#![tactic(auto)]

ghost use Rattle.std.specs.Prelude.{◌≡◌, ◌≤◌, ◌<◌, length};
ghost use Rattle.spec.specs.Image.{tables_of};
ghost use Rattle.laws.specs.Valid.{Valid};
ghost use Rattle.image.specs.Loaded.{Loaded};
ghost use Rattle.monomial_terms.specs.Terms.{TERMS, NUMBERS};

use ac_repr::Walk;
use image::Image;
use judge::{Verdict, judge};
use std::io;

// of an image that shows every two of its classes
const SMALL: usize = 12;

// a frame, and the query at its end
const FRAME: usize = 65536;

const QUERY: usize = 8;

fn number(rt: &impl Print, n: usize) -> io::Result<()> {
    rt.print(numbers::long_size(n))
}

fn refused(rt: &impl Print) -> io::Result<()> {
    rt.write_all(b"refused\n")
}

// A term behind a space.
fn term(rt: &impl Print, c: u64, k: u64) -> io::Result<()> {
    rt.write_all(b" ")?;
    rt.print(c)?;
    rt.write_all(b":")?;
    rt.print(k)
}

// The first n terms.
fn terms(rt: &impl Print, mono: &[u64], n: usize) -> io::Result<()>
    requires { (length mono.now ≡ NUMBERS) × (n ≤ TERMS) }
{
    for i in 0..n {
        term(
            rt,
            monomial_terms::class_at(mono, i),
            monomial_terms::count_at(mono, i),
        )?;
    }
    Ok(())
}

// A line: classes, operation, terms.
fn write(
    rt: &impl Print,
    l: usize,
    r: usize,
    op: usize,
    left: &[u64],
    n: usize,
    right: &[u64],
    m: usize,
) -> io::Result<()>
    requires { (length left.now ≡ NUMBERS) × (n ≤ TERMS) × (length right.now ≡ NUMBERS) × (m ≤ TERMS) }
{
    number(rt, l)?;
    rt.write_all(b" ")?;
    number(rt, r)?;
    rt.write_all(b" ")?;
    number(rt, op)?;
    terms(rt, left, n)?;
    rt.write_all(b" |")?;
    terms(rt, right, m)?;
    rt.write_all(b"\n")
}

// The pair at w's places, if there is one.
fn line(rt: &impl Print, s: &[u8], im: Image, l: usize, r: usize, w: Walk) -> io::Result<()>
    requires { Loaded s.now im × Valid (tables_of s.now) × (l < im.classes) × (r < im.classes) × (w.op < im.operations) }
{
    let mut left = [0u64; monomial_terms::NUMBERS];
    let mut right = [0u64; monomial_terms::NUMBERS];
    if let Some((n, m)) = ac_monomials::monomials(s, im, l, r, w, &mut left, &mut right) {
        write(rt, l, r, w.op, &left, n, &right, m)?;
    }
    Ok(())
}

// The pairs of two classes.
fn of_classes(rt: &impl Print, s: &[u8], im: Image, l: usize, r: usize) -> io::Result<()>
    requires { Loaded s.now im × Valid (tables_of s.now) × (l < im.classes) × (r < im.classes) }
{
    let mut x = ac_repr::first(s, im, l, r);
    while let Some(w) = x {
        line(rt, s, im, l, r, w)?;
        x = ac_repr::next(s, im, l, r, w);
    }
    Ok(())
}

// The pairs of class l beside each class.
fn beside(rt: &impl Print, s: &[u8], im: Image, l: usize) -> io::Result<()>
    requires { Loaded s.now im × Valid (tables_of s.now) × (l < im.classes) }
{
    for r in 0..im.classes {
        of_classes(rt, s, im, l, r)?;
    }
    Ok(())
}

fn of_image(rt: &impl Print, s: &[u8], im: Image) -> io::Result<()>
    requires { Loaded s.now im × Valid (tables_of s.now) }
{
    for l in 0..im.classes {
        beside(rt, s, im, l)?;
    }
    Ok(())
}

// The pairs of an accepted image with the query of classes l and r.
fn accepted(rt: &impl Print, s: &[u8], im: Image, l: usize, r: usize) -> io::Result<()>
    requires { Loaded s.now im × Valid (tables_of s.now) }
{
    if l >= im.classes {
        return refused(rt);
    }
    if r >= im.classes {
        return refused(rt);
    }
    if im.classes > SMALL {
        return of_classes(rt, s, im, l, r);
    }
    of_image(rt, s, im)
}

// an image with the query of classes l and r
fn query(rt: &impl Print, s: &[u8], l: usize, r: usize) -> io::Result<()> {
    let v = judge(s);
    match v {
        Verdict::Accepted(im) => accepted(rt, s, im, l, r),
        Verdict::Refused(_) => refused(rt),
        Verdict::Doubled(_) => refused(rt),
    }
}

fn of_frame(rt: &impl Print, s: &[u8]) -> io::Result<()> {
    if s.len() > FRAME {
        return refused(rt);
    }
    if s.len() < QUERY {
        return refused(rt);
    }
    let end = s.len() - QUERY;
    query(rt, &s[0..end], image::be2(s, end), image::be2(s, end + 2))
}

// a frame and its empty line
fn frame(rt: &impl Print, s: &[u8]) -> io::Result<()> {
    of_frame(rt, s)?;
    rt.write_all(b"\n")
}

// the frames in the bytes
fn each(rt: &impl Print, s: &[u8]) -> io::Result<()> {
    let mut at = 0;
    // no range: a cursor that goes on behind the frame that was read
    while at + 4 <= s.len() {
        let from = at + 4;
        let n = numbers::size_u64(image::be4(s, at));
        if n > s.len() - from {
            return Ok(());
        }
        frame(rt, &s[from..from + n])?;
        at = from + n;
    }
    Ok(())
}

// the frames in the first n bytes
fn front(rt: &impl Print, s: &[u8], n: usize) -> io::Result<()> {
    if n <= s.len() {
        each(rt, &s[0..n])?;
    }
    Ok(())
}

// the frames of the input's first 262,144 bytes
fn run(rt: &(impl Input + Print), input: &mut [u8; 262144]) -> io::Result<()> {
    let n = streams::read_full(&mut rt.reader(), input)?;
    front(rt, input, n)
}

fn main(rt: HostRuntime) -> io::Result<()> {
    let mut input = [0u8; 262144];
    run(&rt, &mut input)
}
