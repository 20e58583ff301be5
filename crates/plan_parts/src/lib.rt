// Small parts of a transport's plan: a cell's place; no units in any cell.
#![tactic(auto)]

ghost use Rattle.std.specs.Prelude.{◌≡◌, ◌+◌, ◌*◌, ◌≤◌, ◌<◌, length, replicate};
ghost use Rattle.spec.specs.Transport.{WIDEST};
ghost use Rattle.laws.specs.Buffers.{over};

// The cell of row i and column j of c.
pub fn place(i: usize, j: usize, c: usize) -> usize
    requires { (i < WIDEST) × (j < c) × (c ≤ WIDEST) }
    ensures { result ≡ i * c + j }
{
    i * c + j
}

// n cells of the plan are 0.
pub fn empty_plan(flow: &mut [u64], n: usize)
    requires { n ≤ length flow.old }
    ensures { flow.new ≡ over (replicate n 0) flow.old }
{
    flow[..n].fill(0);
}
