// A member's term: a literal, or an operation over the kept best terms of its children's classes.
#![tactic(auto)]

ghost use Rattle.std.specs.Prelude.{◌≤◌, ◌<◌};
ghost use Rattle.spec.specs.Image.{tables_of, the_member};
ghost use Rattle.spec.specs.Pool.{intern, lit_node};
ghost use Rattle.query.specs.Settings.{limits_of};
ghost use Rattle.image.specs.Loaded.{Loaded};
ghost use Rattle.terms.specs.Buffers.{count_in, pool_of};
ghost use Rattle.terms.specs.Chains.{Holds, Rooms};
ghost use Rattle.op_terms.specs.Members.{Gives, member_node, MemberReady};

use image::Image;
use op_terms::op_term;
use query::Limits;

// the kind of a literal
const LIT: usize = 9;

fn lit_term(lim: Limits, terms: &mut [u32], runs: &mut [u64], op: usize, v: u64) -> Option<usize>
    requires { Holds terms.old runs.old × (op < 64) × (v < 4294967296) × Rooms (limits_of lim) terms.old runs.old }
    ensures { Gives terms.old runs.old terms.new runs.new (intern (limits_of lim) (pool_of terms.old runs.old) (lit_node op v)) result }
{
    let list = [0u64; 1];
    interning::intern(
        lim,
        terms,
        runs,
        &list,
        0,
        numbers::short_size(64 + op),
        numbers::short_u64(v),
    )
}

// The term of a member all of whose children's classes are built, "which keep stored order".
pub fn member_term(
    lim: Limits,
    s: &[u8],
    im: Image,
    terms: &mut [u32],
    runs: &mut [u64],
    best: &[u16],
    m: usize,
) -> Option<usize>
    requires { Holds terms.old runs.old × Loaded s.now im × (m < im.members) × ((the_member (tables_of s.now) m).op < im.operations) × (im.operations ≤ 64) × MemberReady (tables_of s.now) best.now (count_in terms.old) m × Rooms (limits_of lim) terms.old runs.old }
    ensures { Gives terms.old runs.old terms.new runs.new (intern (limits_of lim) (pool_of terms.old runs.old) (member_node (tables_of s.now) best.now (the_member (tables_of s.now) m))) result }
{
    let op = members::member_op(s, im, m);
    let k = operations::kind(s, im, op);
    if k == LIT {
        let v = members::member_value(s, im, m);
        return lit_term(lim, terms, runs, op, v);
    }
    op_term(lim, s, im, terms, runs, best, m, op)
}
