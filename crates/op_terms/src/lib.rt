// The term of an operation over the kept best terms of a member's children's classes.
#![tactic(auto)]

ghost use Rattle.std.specs.Prelude.{◌≡◌, ℕ, ◌+◌, ◌^◌, ◌≤◌, ◌<◌, map, length, get_or};
ghost use Rattle.spec.specs.Image.{tables_of, the_member, children_of};
ghost use Rattle.spec.specs.Pool.{intern, op_node};
ghost use Rattle.query.specs.Settings.{limits_of};
ghost use Rattle.image.specs.Loaded.{Loaded, the_child};
ghost use Rattle.terms.specs.Buffers.{count_in, pool_of};
ghost use Rattle.terms.specs.Chains.{Holds, Rooms};
ghost use Rattle.op_terms.specs.Members.{Gives, kept_run, kept_number, MemberReady};

use image::Image;
use query::Limits;

// child k of the image as a run over the kept term of its class
fn kept_run(s: &[u8], im: Image, best: &[u16], k: usize) -> u64
    requires { Loaded s.now im × (k < im.children) × ((the_child (tables_of s.now) k).0 < length best.now) × (0 < get_or best.now (the_child (tables_of s.now) k).0 0) × (get_or best.now (the_child (tables_of s.now) k).0 0 ≤ 16384) }
    ensures { (result ≡ kept_number best.now (the_child (tables_of s.now) k)) × (result < 2 ^ 47) }
{
    let c = members::child_class(s, im, k);
    let n = members::child_times(s, im, k);
    n * 16384 + numbers::long_size(stores::at_u16(best, c) - 1)
}

// the n children from child k on, as runs over the kept terms of their classes
fn kept_runs(s: &[u8], im: Image, best: &[u16], list: &mut [u64], k: usize, n: usize)
    requires { Loaded s.now im × (k < 65536) × (n ≤ length list.old) × ((i : ℕ) → i < n → (k + i < im.children) × ((the_child (tables_of s.now) (k + i)).0 < length best.now) × (0 < get_or best.now (the_child (tables_of s.now) (k + i)).0 0) × (get_or best.now (the_child (tables_of s.now) (k + i)).0 0 ≤ 16384)) }
    ensures { (i : ℕ) → i < n → (get_or list.new i 0 ≡ kept_number best.now (the_child (tables_of s.now) (k + i))) × (get_or list.new i 0 < 2 ^ 47) }
{
    for i in 0..n {
        stores::put_u64(list, i, kept_run(s, im, best, k + i));
    }
}

pub fn op_term(
    lim: Limits,
    s: &[u8],
    im: Image,
    terms: &mut [u32],
    runs: &mut [u64],
    best: &[u16],
    m: usize,
    op: usize,
) -> Option<usize>
    requires { Holds terms.old runs.old × Loaded s.now im × (m < im.members) × (op < 64) × MemberReady (tables_of s.now) best.now (count_in terms.old) m × Rooms (limits_of lim) terms.old runs.old }
    ensures { Gives terms.old runs.old terms.new runs.new (intern (limits_of lim) (pool_of terms.old runs.old) (op_node op (map (kept_run best.now) (children_of (tables_of s.now) (the_member (tables_of s.now) m))))) result }
{
    let mut list = [0u64; 64];
    let k = members::first_child(s, im, m);
    let n = members::child_count(s, im, m);
    kept_runs(s, im, best, &mut list, k, n);
    let j = joining::join_runs(&mut list, n);
    interning::intern(lim, terms, runs, &list, j, numbers::short_size(op), 0)
}
