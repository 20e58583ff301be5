// A run's beginning: the root's starting term and the graph, with the first checks of its budget (`run` of exact_fixed.rs, up to its graph).
#![tactic(auto)]

ghost use Rattle.std.specs.Prelude.{◌+◌, ◌*◌, ◌≤◌, ◌<◌, length};
ghost use Rattle.spec.specs.Image.{tables_of};
ghost use Rattle.laws.specs.Valid.{Valid};
ghost use Rattle.query.specs.Settings.{limits_of, asked_of};
ghost use Rattle.image.specs.Loaded.{Loaded};
ghost use Rattle.terms.specs.Chains.{Rooms};
ghost use Rattle.beginning.specs.Beginning.{Begins};

use budget::Budget;
use graph::Built;
use image::Image;
use numbers::size_u16;
use prepared::Begun;
use query::{Limits, Query};

// An empty pool, the root's starting term and the graph.
pub fn begin(
    lim: Limits,
    s: &[u8],
    im: Image,
    q: Query,
    graph: &mut [u16],
    terms: &mut [u32],
    runs: &mut [u64],
) -> Begun
    requires { Loaded s.now im × Valid (tables_of s.now) × (q.left < im.classes) × (q.right < im.classes) × Rooms (limits_of lim) terms.old runs.old × (im.classes * im.classes + lim.pairs ≤ length graph.old) × (lim.pairs ≤ 4096) }
    ensures { Begins (limits_of lim) (tables_of s.now) (asked_of q) q.budget im.classes graph.old terms.old runs.old graph.new terms.new runs.new result }
{
    let mut best = [0u16; 256];
    let l = size_u16(q.left);
    let r = size_u16(q.right);
    terms::empty(terms);
    let e = best_terms::evaluate_generalize_action(lim, s, im, terms, runs, &mut best, l, r);
    let Some(root) = e else {
        return Begun::Stopped(13);
    };
    let b = Budget { left: q.budget };
    match graph::build(lim, s, im, l, r, b, graph) {
        Some(Built::All(n, c, k)) => Begun::All(root, n, c, k),
        Some(Built::Cut(k)) => Begun::Cut(root, k),
        None => Begun::Stopped(12),
    }
}
