// The marked place of two terms.
#![tactic(auto)]

ghost use Rattle.std.specs.Prelude.{◌<◌};
ghost use Rattle.spec.specs.Pool.{intern, variants_node};
ghost use Rattle.query.specs.Settings.{limits_of};
ghost use Rattle.terms.specs.Buffers.{count_in, pool_of};
ghost use Rattle.terms.specs.Chains.{Holds, Rooms};
ghost use Rattle.op_terms.specs.Members.{Gives};

use query::Limits;

// The marked place of two terms.
pub fn variants(
    lim: Limits,
    terms: &mut [u32],
    runs: &mut [u64],
    a: usize,
    b: usize,
) -> Option<usize>
    requires { Holds terms.old runs.old × (a < count_in terms.old) × (b < count_in terms.old) × Rooms (limits_of lim) terms.old runs.old }
    ensures { Gives terms.old runs.old terms.new runs.new (intern (limits_of lim) (pool_of terms.old runs.old) (variants_node a b)) result }
{
    let mut list = [0u64; 2];
    stores::put_u64(&mut list, 0, 16384 + numbers::long_size(a));
    stores::put_u64(&mut list, 1, 16384 + numbers::long_size(b));
    let n = joining::join_runs(&mut list, 2);
    interning::intern(lim, terms, runs, &list, n, 128, 0)
}
