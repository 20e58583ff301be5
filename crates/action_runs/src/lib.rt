// The terms of an action's pairs with their counts, as runs in a lent list (exact_fixed.rs).
#![tactic(auto)]

ghost use Rattle.std.specs.Prelude.{◌≡◌, ◌≤◌, length};
ghost use Rattle.spec.specs.Image.{tables_of};
ghost use Rattle.laws.specs.Buffers.{over};
ghost use Rattle.laws.specs.Valid.{Valid};
ghost use Rattle.arrays.specs.Arrays.{Known, term_in};
ghost use Rattle.image.specs.Loaded.{Loaded};
ghost use Rattle.actions.specs.Place.{Stands, action_at};
ghost use Rattle.action_runs.specs.Runs.{runs_of};

use actions::{State, count, left_class, right_class};
use arrays::term_of;
use image::Image;
use numbers::long_u32;
use stores::put_u64;

// The terms of a structural action's pairs, each once: how many.
pub fn list_action(
    s: &[u8],
    im: Image,
    v: State,
    graph: &[u16],
    pairs: &[u32],
    list: &mut [u64],
) -> usize
    requires { Loaded s.now im × Valid (tables_of s.now) × Stands (tables_of s.now) v × Known im.classes graph.now pairs.now × (64 ≤ length list.old) }
    ensures { (result ≡ length (runs_of (term_in im.classes graph.now pairs.now) (action_at (tables_of s.now) v).pairs)) × (list.new ≡ over (runs_of (term_in im.classes graph.now pairs.now) (action_at (tables_of s.now) v).pairs) list.old) }
{
    let m = count(s, im, v);
    for k in 0..m {
        let l = left_class(s, im, v, k);
        let r = right_class(s, im, v, k);
        put_u64(
            list,
            k,
            16384 + long_u32(term_of(graph, pairs, im.classes, l, r)),
        );
    }
    m
}
