// The pair table: "a lent slice of records, searched from its start": a pair looked up or entered, and the table cleared.
#![tactic(auto)]

ghost use Rattle.std.specs.Prelude.{◌≡◌, true, min, length};
ghost use Rattle.spec.specs.Bytes.{work_after};
ghost use Rattle.spec.specs.Graph.{PAIRS};
ghost use Rattle.pair_search.specs.Records.{none};
ghost use Rattle.pair_table.specs.Table.{put_in, outcome_of, enter_of, table_after};

use pair_search::{Pair, find};

// A pair was there already, was entered, or there was no room: three ways, and two of them with a place, so no Option.
#[derive(Clone, Copy)]
pub enum Entered {
    At(usize),
    New(usize),
    Full,
}

// How many pairs there may be.
pub const PAIRS: usize = 4096;

// How many records a table of `len` may hold.
fn room(len: usize) -> usize
    ensures { result ≡ min PAIRS len }
{
    PAIRS.min(len)
}

// What became of a pair that was found at `at`, with `count` records in use in a table of `len`.
fn outcome(at: usize, count: usize, len: usize) -> Entered
    ensures { result ≡ outcome_of at count len }
{
    if at < count.min(len) {
        return Entered::At(at);
    }
    if count < room(len) {
        return Entered::New(count);
    }
    Entered::Full
}

// Puts a record below the limit; nothing is written past the end. Gives the length.
fn put_in(table: &mut [Pair], i: usize, p: Pair) -> usize
    ensures { (result ≡ length table.old) × (table.new ≡ put_in table.old i p) }
{
    let len = table.len();
    if i < room(len) {
        table[i] = p;
    }
    len
}

// Looks a pair up among `count` records, or enters it after them.
pub fn enter(table: &mut [Pair], count: usize, left: u16, right: u16) -> Entered
    ensures { (result ≡ enter_of table.old count (left, right)) × (table.new ≡ table_after table.old count (left, right)) }
{
    let at = find(table, count, left, right);
    let len = put_in(table, at, Pair { left, right });
    outcome(at, count, len)
}

// Every record (0, 0).
pub fn clear_table(table: &mut [Pair])
    ensures { table.new ≡ work_after none true table.old }
{
    table.fill(Pair::NONE);
}
