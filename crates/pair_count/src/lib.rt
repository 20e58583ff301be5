// The pairs of a graph entered into the pair table, and counted from the queried pair on.
#![tactic(auto)]

ghost use Rattle.std.specs.Prelude.{◌≡◌, ◌+◌, ◌-◌, get_or};
ghost use Rattle.pair_count.specs.Counted.{not_new, pair_at, entered_of, counted_of};

use pair_search::{Pair, find};
use pair_table::{Entered, enter};

// How many records stand in the table from the queried pair's on. Only `enter_graph` makes one.
#[derive(Clone, Copy)]
pub struct Count {
    pairs: usize,
}

// The key of pair k, which stands at from + k; 0 past the end.
fn key_at(graph: &[u16], from: usize, k: usize) -> u16
    ensures { result ≡ get_or graph.now (from + k) 0 }
{
    if from >= graph.len() {
        return 0;
    }
    if k >= graph.len() - from {
        return 0;
    }
    graph[from + k]
}

// Its left class, and its right class.
fn left_of(graph: &[u16], from: usize, k: usize) -> u16
    ensures { result ≡ (pair_at graph.now from k).0 }
{
    key_at(graph, from, k) / 256
}

fn right_of(graph: &[u16], from: usize, k: usize) -> u16
    ensures { result ≡ (pair_at graph.now from k).1 }
{
    key_at(graph, from, k) % 256
}

// Whether a pair was there already, or found no room.
fn not_new(e: Entered) -> bool
    ensures { result ≡ not_new e }
{
    !matches!(e, Entered::New(_))
}

// Enters the n pairs whose keys stand from place `from` on, in their order, as long as each is new. Gives how many records are held then.
fn enter_all(table: &mut [Pair], graph: &[u16], from: usize, n: usize) -> usize
    ensures { (result ≡ (entered_of graph.now from n 0 table.old).0) × (table.new ≡ (entered_of graph.now from n 0 table.old).1) }
{
    for k in 0..n {
        let l = left_of(graph, from, k);
        let r = right_of(graph, from, k);
        let e = enter(table, k, l, r);
        if not_new(e) {
            return k;
        }
    }
    n
}

// The records from place `at` on, of `held` records.
fn count_from(at: usize, held: usize) -> Count
    ensures { result ≡ record { pairs = held - at } }
{
    if at < held {
        return Count { pairs: held - at };
    }
    Count { pairs: 0 }
}

// Enters the n pairs whose keys stand from place `from` on, and counts the records from the queried pair's on.
pub fn enter_graph(
    table: &mut [Pair],
    graph: &[u16],
    from: usize,
    n: usize,
    left: u16,
    right: u16,
) -> Count
    ensures { (result ≡ counted_of (entered_of graph.now from n 0 table.old) (left, right)) × (table.new ≡ (entered_of graph.now from n 0 table.old).1) }
{
    let held = enter_all(table, graph, from, n);
    let at = find(table, held, left, right);
    count_from(at, held)
}

// How many records were counted.
pub fn pairs_in(c: Count) -> usize
    ensures { result ≡ c.pairs }
{
    c.pairs
}
