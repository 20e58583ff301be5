// The one final term of the winner of a pair's turn (exact_fixed.rs, `relax`): the term that the pair has, or that of the action chosen.
#![tactic(auto)]

ghost use Rattle.std.specs.Prelude.{map, ◌^◌, ◌≤◌, ◌<◌, length};
ghost use Rattle.spec.specs.Bytes.{sum};
ghost use Rattle.spec.specs.Image.{tables_of, kind_of, is_commutative};
ghost use Rattle.spec.specs.Round as round;
ghost use Rattle.laws.specs.Valid.{Valid};
ghost use Rattle.pools.specs.Pool.{RunsBelow};
ghost use Rattle.query.specs.Settings.{limits_of};
ghost use Rattle.image.specs.Loaded.{Loaded};
ghost use Rattle.arrays.specs.Arrays.{Known, TermsBelow, quality_in, term_in};
ghost use Rattle.terms.specs.Buffers.{count_in, part, unpack};
ghost use Rattle.terms.specs.Chains.{Holds, Rooms};
ghost use Rattle.action_term.specs.Results.{ActionResult};
ghost use Rattle.turn_term.specs.FinalTerm.{Ended};
ghost use Rattle.turn_term.specs.Agreeing.{Chosen};

use image::Image;
use numbers::{short_size, size_u32};
use quality::How;
use query::Limits;

// The term of operation o over the first m runs of the list.
fn intern_action(
    lim: Limits,
    s: &[u8],
    im: Image,
    o: usize,
    m: usize,
    list: &mut [u64],
    terms: &mut [u32],
    runs: &mut [u64],
) -> Option<usize>
    requires { Loaded s.now im × (o < im.operations) × (o < 64) × Holds terms.old runs.old × ((m ≤ length list.old) × RunsBelow (count_in terms.old) (map unpack (part list.old 0 m)) × (sum (part list.old 0 m) < 2 ^ 64)) × Rooms (limits_of lim) terms.old runs.old }
    ensures { ActionResult (limits_of lim) terms.old runs.old list.old m o (is_commutative (kind_of (tables_of s.now) o)) terms.new runs.new list.new result }
{
    let commutative = id::is_commutative(operations::kind(s, im, o));
    action_term::intern_action_result(lim, terms, runs, list, m, short_size(o), commutative)
}

// The pair's final term: the one it has, or that of the action chosen.
pub fn turn_term(
    lim: Limits,
    s: &[u8],
    im: Image,
    graph: &[u16],
    pairs: &[u32],
    l: usize,
    r: usize,
    how: How,
    list: &mut [u64],
    terms: &mut [u32],
    runs: &mut [u64],
) -> Option<usize>
    requires { Loaded s.now im × Valid (tables_of s.now) × (l < im.classes) × (r < im.classes) × Known im.classes graph.now pairs.now × TermsBelow im.classes graph.now pairs.now (count_in terms.old) × (64 ≤ length list.old) × Holds terms.old runs.old × Rooms (limits_of lim) terms.old runs.old
        × Chosen lim.pairs (tables_of s.now) (term_in im.classes graph.now pairs.now) list.old how (round.turn_of (tables_of s.now) (quality_in im.classes graph.now pairs.now) (l, r)).choice }
    ensures { Ended (limits_of lim) (tables_of s.now) (term_in im.classes graph.now pairs.now) terms.old runs.old (term_in im.classes graph.now pairs.now (l, r))
        (round.turn_of (tables_of s.now) (quality_in im.classes graph.now pairs.now) (l, r)).choice list.old terms.new runs.new list.new result }
{
    match how {
        How::Stay => Some(size_u32(arrays::term_of(graph, pairs, im.classes, l, r))),
        How::Aligned(v) => {
            let m = action_runs::list_action(s, im, v, graph, pairs, list);
            intern_action(lim, s, im, actions::op(s, im, v), m, list, terms, runs)
        }
        How::Plan(o, m) => intern_action(lim, s, im, o, m, list, terms, runs),
    }
}
