// A pair's turn (exact_fixed.rs, `relax`): transports offered after structural actions, and what was found best made its end.
#![tactic(auto)]

ghost use Rattle.std.specs.Prelude.{◌≡◌, ◌^◌, ◌<◌};
ghost use Rattle.spec.specs.Action.{TransportAction, transports};
ghost use Rattle.spec.specs.Image.{tables_of};
ghost use Rattle.spec.specs.Meaning.{In};
ghost use Rattle.spec.specs.Round as round;
ghost use Rattle.laws.specs.Valid.{Valid};
ghost use Rattle.lgg.specs.Cells.{CellsFit};
ghost use Rattle.query.specs.Settings.{limits_of};
ghost use Rattle.image.specs.Loaded.{Loaded};
ghost use Rattle.arrays.specs.Arrays.{Known, TermsBelow, Scratch, quality_in, term_in};
ghost use Rattle.ac_monomials.specs.Actions.{actions_at};
ghost use Rattle.terms.specs.Buffers.{count_in};
ghost use Rattle.terms.specs.Chains.{Holds, Rooms};
ghost use Rattle.offers.specs.Offers.{offers_in, work_of};
ghost use Rattle.turn_term.specs.Agreeing.{Agrees};
ghost use Rattle.turn_end.specs.Taking.{Takes};
ghost use Rattle.turns.specs.Leaving.{Leaves, turn_in};
ghost use Rattle.turns.specs.Walking.{Fitting};

use ac_repr::Walk;
use image::Image;
use quality::Best;
use query::Limits;
use turn_end::Turned;

// ---- the transports of a pair
// The action at a pair of places, if there is one, offered.
fn offer_walk(
    lim: Limits,
    s: &[u8],
    im: Image,
    graph: &[u16],
    pairs: &[u32],
    l: usize,
    r: usize,
    w: Walk,
    work: &mut [u64],
    flow: &mut [u64],
    best: Best,
) -> Best
    requires { Loaded s.now im × Valid (tables_of s.now) × (l < im.classes) × (r < im.classes) × (w.op < im.operations) × Known im.classes graph.now pairs.now
        × ((a : TransportAction) → In a (actions_at (tables_of s.now) l r w) → Fitting im.classes lim.pairs a) × Scratch (limits_of lim) work.old flow.old }
    ensures { work_of work.new flow.new result
        ≡ offers_in lim.pairs (quality_in im.classes graph.now pairs.now) (term_in im.classes graph.now pairs.now) (actions_at (tables_of s.now) l r w)
        (work_of work.old flow.old best) }
{
    let mut left = [0u64; 130];
    let mut right = [0u64; 130];
    let p = ac_monomials::monomials(s, im, l, r, w, &mut left, &mut right);
    match p {
        None => best,
        Some((rows, cols)) => offers::offer_transport(
            lim, graph, pairs, im.classes, w.op, &left, rows, &right, cols, work, flow, best,
        ),
    }
}

// All of them, one after the other.
fn offer_transports(
    lim: Limits,
    s: &[u8],
    im: Image,
    graph: &[u16],
    pairs: &[u32],
    l: usize,
    r: usize,
    work: &mut [u64],
    flow: &mut [u64],
    b: Best,
) -> Best
    requires { Loaded s.now im × Valid (tables_of s.now) × (l < im.classes) × (r < im.classes) × Known im.classes graph.now pairs.now × CellsFit (limits_of lim) (tables_of s.now) (l, r) × Scratch (limits_of lim) work.old flow.old }
    ensures { work_of work.new flow.new result
        ≡ offers_in lim.pairs (quality_in im.classes graph.now pairs.now) (term_in im.classes graph.now pairs.now) (transports (tables_of s.now) l r)
        (work_of work.old flow.old b) }
{
    let mut best = b;
    let mut x = ac_repr::first(s, im, l, r);
    while let Some(w) = x {
        best = offer_walk(lim, s, im, graph, pairs, l, r, w, work, flow, best);
        x = ac_repr::next(s, im, l, r, w);
    }
    best
}

// ---- a pair's turn
// The first strictly best of what a pair has and of what its actions give: "structural actions come before transport".
fn turn(
    lim: Limits,
    s: &[u8],
    im: Image,
    graph: &[u16],
    pairs: &[u32],
    l: usize,
    r: usize,
    work: &mut [u64],
    flow: &mut [u64],
) -> Best
    requires { Loaded s.now im × Valid (tables_of s.now) × (l < im.classes) × (r < im.classes) × Known im.classes graph.now pairs.now × CellsFit (limits_of lim) (tables_of s.now) (l, r) × Scratch (limits_of lim) work.old flow.old }
    ensures { Agrees lim.pairs (tables_of s.now) (term_in im.classes graph.now pairs.now) work.new result (round.turn_of (tables_of s.now) (quality_in im.classes graph.now pairs.now) (l, r))
        × (work_of work.new flow.new result ≡ turn_in (limits_of lim) (tables_of s.now) (quality_in im.classes graph.now pairs.now) (term_in im.classes graph.now pairs.now) (l, r) work.old flow.old)
        × (result.size < 2 ^ 32) × (result.mass < 2 ^ 32) }
{
    let b = best_aligned::best_aligned(s, im, graph, pairs, l, r);
    offer_transports(lim, s, im, graph, pairs, l, r, work, flow, b)
}

// A pair's turn over the previous round: its quality afterwards and its term; None: refusal 13.
pub fn take_turn(
    lim: Limits,
    s: &[u8],
    im: Image,
    graph: &[u16],
    pairs: &[u32],
    l: usize,
    r: usize,
    work: &mut [u64],
    flow: &mut [u64],
    terms: &mut [u32],
    runs: &mut [u64],
) -> Option<Turned>
    requires { Loaded s.now im × Valid (tables_of s.now) × (l < im.classes) × (r < im.classes) × Known im.classes graph.now pairs.now × TermsBelow im.classes graph.now pairs.now (count_in terms.old) × CellsFit (limits_of lim) (tables_of s.now) (l, r) × Scratch (limits_of lim) work.old flow.old
        × Holds terms.old runs.old × Rooms (limits_of lim) terms.old runs.old }
    ensures { Takes (limits_of lim) (tables_of s.now) (quality_in im.classes graph.now pairs.now) (term_in im.classes graph.now pairs.now) (l, r) terms.old runs.old terms.new runs.new result
        × Leaves (limits_of lim) (tables_of s.now) (quality_in im.classes graph.now pairs.now) (term_in im.classes graph.now pairs.now) (l, r) terms.old runs.old work.old flow.old work.new flow.new }
{
    let best = turn(lim, s, im, graph, pairs, l, r, work, flow);
    turn_end::end_turn(lim, s, im, graph, pairs, l, r, best, work, terms, runs)
}
