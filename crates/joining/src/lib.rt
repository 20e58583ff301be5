// Joining: a list of runs in place, neighbours with the same child made one run.
#![tactic(auto)]

ghost use Rattle.std.specs.Prelude.{◌≡◌, ◌+◌, ◌^◌, ◌≤◌, ◌<◌, length};
ghost use Rattle.spec.specs.Bytes.{sum};
ghost use Rattle.terms.specs.Buffers.{part};
ghost use Rattle.joining.specs.Joining.{append_number, joined_in, Begins};

// the run x at the end of m joined runs
fn append(list: &mut [u64], m: usize, x: u64) -> usize
    requires { (m < length list.old) × (sum (part list.old 0 m) + x < 2 ^ 64) }
    ensures { Begins (append_number (part list.old 0 m) x) list.old list.new result }
{
    if m == 0 {
        stores::put_u64(list, 0, x);
        return 1;
    }
    let y = list[m - 1];
    if y % 16384 == x % 16384 {
        stores::put_u64(list, m - 1, y + x / 16384 * 16384);
        return m;
    }
    stores::put_u64(list, m, x);
    m + 1
}

// the first n runs of list joined in place: how many they are then
pub fn join_runs(list: &mut [u64], n: usize) -> usize
    requires { (n ≤ length list.old) × (sum (part list.old 0 n) < 2 ^ 64) }
    ensures { Begins (joined_in list.old n) list.old list.new result }
{
    let mut m = 0;
    for i in 0..n {
        let x = list[i];
        m = append(list, m, x);
    }
    m
}
