// A pair's visit in a round: its turn, whose numbers go beside those of the round before (`relax` of exact_fixed.rs).
#![tactic(auto)]

ghost use Rattle.std.specs.Prelude.{◌+◌, ◌*◌, ◌≤◌, ◌<◌, length};
ghost use Rattle.spec.specs.Image.{tables_of};
ghost use Rattle.laws.specs.Valid.{Valid};
ghost use Rattle.lgg.specs.Cells.{CellsFit};
ghost use Rattle.query.specs.Settings.{limits_of};
ghost use Rattle.arrays.specs.Arrays.{Known, TermsBelow, Scratch};
ghost use Rattle.image.specs.Loaded.{Loaded};
ghost use Rattle.terms.specs.Buffers.{count_in};
ghost use Rattle.terms.specs.Chains.{Holds, Rooms};
ghost use Rattle.visits.specs.Visiting.{Visits};

use arrays::{NEW, WIDTH};
use image::Image;
use query::Limits;

// Pair k's turn over the previous round: its new size, mass and term, and whether it changed; None: refusal 13.
pub fn visit(
    lim: Limits,
    s: &[u8],
    im: Image,
    graph: &[u16],
    l: usize,
    r: usize,
    k: usize,
    pairs: &mut [u32],
    work: &mut [u64],
    flow: &mut [u64],
    terms: &mut [u32],
    runs: &mut [u64],
) -> Option<bool>
    requires { Loaded s.now im × Valid (tables_of s.now) × (l < im.classes) × (r < im.classes) × Known im.classes graph.now pairs.old × TermsBelow im.classes graph.now pairs.old (count_in terms.old) × CellsFit (limits_of lim) (tables_of s.now) (l, r) × Scratch (limits_of lim) work.old flow.old × Holds terms.old runs.old × Rooms (limits_of lim) terms.old runs.old × (k < 65536) × (6 * k + 6 ≤ length pairs.old) }
    ensures { Visits (limits_of lim) (tables_of s.now) im.classes graph.now (l, r) k pairs.old work.old flow.old terms.old runs.old pairs.new work.new flow.new terms.new runs.new result }
{
    let y = turns::take_turn(lim, s, im, graph, pairs, l, r, work, flow, terms, runs)?;
    let term = numbers::short_size(y.term);
    giving::give(pairs, WIDTH * k + NEW, y.size, y.mass, term);
    Some(y.changed)
}
