// Reads transport problems from standard input, a line each, as `supply 2 1 demand 1 2 cells 1,0 2,2 - 2,2` (cells row by row as size,mass, or `-` where forbidden).
// Writes a line for each: `size 5 mass 4 plan 1 1 0 1`, `refused` and its number, or `unreadable`.
#![tactic(auto)]

ghost use Rattle.std.specs.Prelude.{◌+◌, ◌≤◌, ◌<◌, length};

use cost_matrix::{CELLS, COSTS};
use std::io;
use transport::{Answer, Quality, solve_transport};
use wide::Wide;

// How many entries were read, and where the text goes on.
#[derive(Clone, Copy)]
struct Entries {
    count: usize,
    next: usize,
}

// Whether a word is there, and where the text goes on.
#[derive(Clone, Copy)]
struct Place {
    found: bool,
    next: usize,
}

// A number and where the text goes on.
#[derive(Clone, Copy)]
struct Parsed {
    value: u32,
    next: usize,
}

// A cell, 0 as its flag where it is forbidden, and where the text goes on.
#[derive(Clone, Copy)]
struct Cell {
    size: u32,
    mass: u32,
    flag: u8,
    next: usize,
}

// A number's tenth and its last digit.
#[derive(Clone, Copy)]
struct Divided {
    rest: Wide,
    digit: u64,
}

// The byte at a place, 0 behind the end.
fn byte(s: &[u8], at: usize) -> u8 {
    if at < s.len() {
        return s[at];
    }
    0
}

fn is_digit(b: u8) -> bool {
    if b < 48 {
        return false;
    }
    b < 58
}

// Where the text goes on behind a word, if it has it at the place; `found` says whether it had the words before.
fn behind(s: &[u8], found: bool, at: usize, word: &[u8]) -> Place
    requires { at ≤ length s.now }
    ensures { result.next ≤ length s.now }
{
    if s[at..].starts_with(word) {
        return Place {
            found,
            next: at + word.len(),
        };
    }
    Place {
        found: false,
        next: at,
    }
}

// One more digit; a number above 32 bits stays at its last 32-bit value.
fn more(value: u32, b: u8) -> u32
    requires { (48 ≤ b) × (b < 58) }
{
    let x = value as u64 * 10 + (b - 48) as u64;
    if x < 4294967296 {
        return x as u32;
    }
    value
}

// The number at a place.
fn number(s: &[u8], from: usize) -> Parsed
    requires { from ≤ length s.now }
    ensures { (from ≤ result.next) × (result.next ≤ length s.now) }
{
    let mut value = 0u32;
    for at in from..s.len() {
        let b = s[at];
        if b < 48 {
            return Parsed { value, next: at };
        }
        if b >= 58 {
            return Parsed { value, next: at };
        }
        value = more(value, b);
    }
    Parsed {
        value,
        next: s.len(),
    }
}

// The place behind a space at a place; the end of the text where none is.
fn entry(s: &[u8], at: usize) -> usize
    ensures { result ≤ length s.now }
{
    if at >= s.len() {
        return s.len();
    }
    if s[at] != 32 {
        return s.len();
    }
    at + 1
}

// Numbers, each behind a space.
fn numbers(s: &[u8], from: usize, out: &mut [u32]) -> Entries
    requires { from ≤ length s.now }
    ensures { (result.next ≤ length s.now) × (result.count ≤ length out.old) }
{
    let mut at = from;
    for n in 0..out.len() {
        let i = entry(s, at);
        if !is_digit(byte(s, i)) {
            return Entries { count: n, next: at };
        }
        let x = number(s, i);
        out[n] = x.value;
        at = x.next;
    }
    Entries {
        count: out.len(),
        next: at,
    }
}

fn put32(s: &mut [u32], n: usize, x: u32) {
    if n < s.len() {
        s[n] = x;
    }
}

fn put8(s: &mut [u8], n: usize, x: u8) {
    if n < s.len() {
        s[n] = x;
    }
}

fn put_cell(sizes: &mut [u32], masses: &mut [u32], allowed: &mut [u8], n: usize, x: Cell) {
    put32(sizes, n, x.size);
    put32(masses, n, x.mass);
    put8(allowed, n, x.flag);
}

// The cell at a place; the text goes on there where none is.
fn read_cell(s: &[u8], from: usize) -> Cell
    requires { from < length s.now }
    ensures { (from ≤ result.next) × (result.next ≤ length s.now) }
{
    if s[from] == 45 {
        return Cell {
            size: 0,
            mass: 0,
            flag: 0,
            next: from + 1,
        };
    }
    let a = number(s, from);
    if byte(s, a.next) != 44 {
        return Cell {
            size: 0,
            mass: 0,
            flag: 0,
            next: from,
        };
    }
    if a.next >= s.len() {
        return Cell {
            size: 0,
            mass: 0,
            flag: 0,
            next: from,
        };
    }
    let b = number(s, a.next + 1);
    Cell {
        size: a.value,
        mass: b.value,
        flag: 1,
        next: b.next,
    }
}

// Cells, each behind a space.
fn cells(
    s: &[u8],
    from: usize,
    sizes: &mut [u32],
    masses: &mut [u32],
    allowed: &mut [u8],
) -> Entries
    requires { from ≤ length s.now }
    ensures { (result.next ≤ length s.now) × (result.count ≤ 4400) }
{
    let mut at = from;
    for n in 0..4400 {
        let i = entry(s, at);
        if i >= s.len() {
            return Entries { count: n, next: at };
        }
        let x = read_cell(s, i);
        put_cell(sizes, masses, allowed, n, x);
        at = x.next;
    }
    Entries {
        count: 4400,
        next: at,
    }
}

// A byte more in the output.
fn push(out: &mut [u8], at: usize, b: u8) -> usize {
    if at < out.len() {
        out[at] = b;
        return at + 1;
    }
    at
}

fn text(out: &mut [u8], from: usize, s: &[u8]) -> usize {
    let mut at = from;
    for b in s {
        at = push(out, at, *b);
    }
    at
}

fn unreadable(out: &mut [u8]) -> usize {
    text(out, 0, b"unreadable")
}

fn digit(d: u64) -> u8 {
    (48 + d % 10) as u8
}

// The digit of a unit above 1, unless it is a leading zero.
fn unit_digit(out: &mut [u8], at: usize, n: u64, unit: u64) -> usize
    requires { 0 < unit }
{
    if n >= unit {
        return push(out, at, digit(n / unit));
    }
    at
}

// A 32-bit number.
fn decimal(out: &mut [u8], from: usize, n: u64) -> usize {
    let mut at = from;
    let mut unit = 1000000000;
    // no range: the unit falls by tenths
    while unit > 1 {
        at = unit_digit(out, at, n, unit);
        unit = unit / 10;
    }
    push(out, at, digit(n))
}

fn tenth(w: Wide) -> Divided {
    let a = w.hi % 10;
    let x = a * 4294967296 + w.lo / 4294967296 % 4294967296;
    let y = x % 10 * 4294967296 + w.lo % 4294967296;
    Divided {
        rest: Wide {
            lo: x / 10 % 4294967296 * 4294967296 + y / 10 % 4294967296,
            hi: w.hi / 10,
        },
        digit: y % 10,
    }
}

// A number's digits, the last first: how many.
fn digits(w: Wide, out: &mut [u8; 40]) -> usize
    ensures { result ≤ 40 }
{
    let mut x = w;
    for n in 0..40 {
        let t = tenth(x);
        out[n] = digit(t.digit);
        x = t.rest;
        if x.hi == 0 {
            if x.lo == 0 {
                return n + 1;
            }
        }
    }
    40
}

fn decimal_wide(out: &mut [u8], from: usize, w: Wide) -> usize {
    let mut line = [0u8; 40];
    let n = digits(w, &mut line);
    let mut at = from;
    for d in line[..n].iter().rev() {
        at = push(out, at, *d);
    }
    at
}

fn wider(x: u32) -> u64 {
    x as u64
}

// The numbers of the plan, each behind a space.
fn tell_units(out: &mut [u8], from: usize, plan: &[u32]) -> usize {
    let mut at = from;
    for x in plan {
        at = push(out, at, 32);
        at = decimal(out, at, wider(*x));
    }
    at
}

fn tell_plan(out: &mut [u8], q: Quality, plan: &[u32]) -> usize {
    let mut at = text(out, 0, b"size ");
    at = decimal_wide(out, at, q.size);
    at = text(out, at, b" mass ");
    at = decimal_wide(out, at, q.mass);
    at = text(out, at, b" plan");
    tell_units(out, at, plan)
}

fn tell_refused(out: &mut [u8], n: u8) -> usize {
    let at = text(out, 0, b"refused ");
    decimal(out, at, n as u64)
}

fn tell(out: &mut [u8], a: Answer, plan: &[u32]) -> usize {
    match a {
        Answer::Plan(q) => tell_plan(out, q, plan),
        Answer::Refused(n) => tell_refused(out, n),
    }
}

fn solve_in(
    supply: &[u32],
    demand: &[u32],
    sizes: &[u32],
    masses: &[u32],
    allowed: &[u8],
    plan: &mut [u32],
    out: &mut [u8],
) -> usize {
    let mut costs = [0u64; COSTS];
    let mut flow = [0u64; CELLS];
    let a = solve_transport(
        supply, demand, sizes, masses, allowed, plan, &mut costs, &mut flow,
    );
    tell(out, a, plan)
}

fn solve(
    supply: &[u32],
    demand: &[u32],
    sizes: &[u32],
    masses: &[u32],
    allowed: &[u8],
    out: &mut [u8],
) -> usize {
    let mut plan = [0u32; 4400];
    let n = sizes.len();
    if n > 4400 {
        return unreadable(out);
    }
    solve_in(supply, demand, sizes, masses, allowed, &mut plan[0..n], out)
}

// The cells of a line and the answer to it: how many bytes of output.
fn answer_cells(line: &[u8], from: usize, supply: &[u32], demand: &[u32], out: &mut [u8]) -> usize
    requires { from ≤ length line.now }
{
    let mut sizes = [0u32; 4400];
    let mut masses = [0u32; 4400];
    let mut allowed = [0u8; 4400];
    let c = cells(line, from, &mut sizes, &mut masses, &mut allowed);
    if c.next != line.len() {
        return unreadable(out);
    }
    let n = c.count;
    solve(
        supply,
        demand,
        &sizes[0..n],
        &masses[0..n],
        &allowed[0..n],
        out,
    )
}

// The answer to a line: how many bytes of output.
fn answer(line: &[u8], out: &mut [u8]) -> usize {
    let mut supply = [0u32; 128];
    let mut demand = [0u32; 128];
    let p = behind(line, true, 0, b"supply");
    let a = numbers(line, p.next, &mut supply);
    let q = behind(line, p.found, a.next, b" demand");
    let b = numbers(line, q.next, &mut demand);
    let r = behind(line, q.found, b.next, b" cells");
    if !r.found {
        return unreadable(out);
    }
    let rows = a.count;
    let columns = b.count;
    answer_cells(line, r.next, &supply[0..rows], &demand[0..columns], out)
}

fn emit(rt: &impl Print, s: &[u8], n: usize) -> io::Result<()> {
    streams::write_front(&mut io::writer(rt), s, n)
}

fn say(rt: &impl Print, line: &[u8]) -> io::Result<()> {
    let mut out = [0u8; 65536];
    let n = answer(line, &mut out);
    let m = push(&mut out, n, 10);
    emit(rt, &out, m)
}

// The lines of the text.
fn each(rt: &impl Print, s: &[u8]) -> io::Result<()> {
    for line in s.split_inclusive(|b| *b == 10) {
        say(rt, line.strip_suffix(b"\n").unwrap_or(line))?;
    }
    Ok(())
}

fn first(rt: &impl Print, s: &[u8], n: usize) -> io::Result<()> {
    if n <= s.len() {
        each(rt, &s[0..n])?;
    }
    Ok(())
}

fn run(rt: &(impl Input + Print), input: &mut [u8; 262144]) -> io::Result<()> {
    let n = streams::read_full(&mut rt.reader(), input)?;
    first(rt, input, n)
}

fn main(rt: HostRuntime) -> io::Result<()> {
    let mut input = [0u8; 262144];
    run(&rt, &mut input)
}
