// The end of a pair's turn (exact_fixed.rs, `relax`): its quality, its final term, and whether an action was chosen.
#![tactic(auto)]

ghost use Rattle.std.specs.Prelude.{◌≡◌, ◌^◌, ◌≤◌, ◌<◌, length};
ghost use Rattle.spec.specs.Image.{tables_of};
ghost use Rattle.spec.specs.Round as round;
ghost use Rattle.laws.specs.Valid.{Valid};
ghost use Rattle.query.specs.Settings.{limits_of};
ghost use Rattle.image.specs.Loaded.{Loaded};
ghost use Rattle.arrays.specs.Arrays.{Known, TermsBelow, quality_in, term_in};
ghost use Rattle.terms.specs.Buffers.{count_in};
ghost use Rattle.terms.specs.Chains.{Holds, Rooms};
ghost use Rattle.turn_term.specs.FinalTerm.{term_list};
ghost use Rattle.turn_end.specs.Taking.{changed_by, Takes};
ghost use Rattle.turn_term.specs.Agreeing.{Agrees};

use image::Image;
use numbers::short_u64;
use quality::{Best, How};
use query::Limits;
use turn_term::turn_term;

// Whether an action was chosen.
fn changed(how: How) -> bool
    ensures { result ≡ changed_by how }
{
    match how {
        How::Stay => false,
        How::Aligned(_) => true,
        How::Plan(_, _) => true,
    }
}

// A pair's quality after its turn, its term, and whether an action was chosen.
#[derive(Clone, Copy)]
pub struct Turned {
    pub size: u32,
    pub mass: u32,
    pub term: usize,
    pub changed: bool,
}

// The turn ended with what it found best: the pair's quality, its final term, and whether an action was chosen; None: refusal 13.
pub fn end_turn(
    lim: Limits,
    s: &[u8],
    im: Image,
    graph: &[u16],
    pairs: &[u32],
    l: usize,
    r: usize,
    best: Best,
    list: &mut [u64],
    terms: &mut [u32],
    runs: &mut [u64],
) -> Option<Turned>
    requires { Loaded s.now im × Valid (tables_of s.now) × (l < im.classes) × (r < im.classes) × Known im.classes graph.now pairs.now × TermsBelow im.classes graph.now pairs.now (count_in terms.old) × (64 ≤ length list.old) × Holds terms.old runs.old × Rooms (limits_of lim) terms.old runs.old
        × Agrees lim.pairs (tables_of s.now) (term_in im.classes graph.now pairs.now) list.old best (round.turn_of (tables_of s.now) (quality_in im.classes graph.now pairs.now) (l, r)) × (best.size < 2 ^ 32) × (best.mass < 2 ^ 32) }
    ensures { Takes (limits_of lim) (tables_of s.now) (quality_in im.classes graph.now pairs.now) (term_in im.classes graph.now pairs.now) (l, r) terms.old runs.old terms.new runs.new result
        × (list.new ≡ term_list (tables_of s.now) (term_in im.classes graph.now pairs.now) terms.old runs.old (round.turn_of (tables_of s.now) (quality_in im.classes graph.now pairs.now) (l, r)).choice list.old) }
{
    let how = best.how;
    let term = turn_term(lim, s, im, graph, pairs, l, r, how, list, terms, runs)?;
    Some(Turned {
        size: short_u64(best.size),
        mass: short_u64(best.mass),
        term,
        changed: changed(how),
    })
}
