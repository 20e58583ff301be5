// 18: whether every operation in a term has a proper sign of its own and precedence.
#![tactic(auto)]

ghost use Rattle.std.specs.Prelude.{◌≡◌, ◌↔◌, true, ◌+◌, ◌*◌, ◌-◌, ◌≤◌, ◌<◌, length};
ghost use Rattle.terms.specs.Buffers.{part, count_in, pool_of};
ghost use Rattle.terms.specs.Chains.{Holds};
ghost use Rattle.card_judge.specs.Bound.{bound_head, ChildrenBelow, mark_all, bound_at, marks_at, cleared, AllBound, Unmarked, Judged};

// The work buffer has a number for each term: not 0 where it is in the root's term.

fn clear_marks(marks: &mut [u16], m: usize)
    requires { m ≤ length marks.old }
    ensures { marks.new ≡ cleared m marks.old }
{
    marks[..m].fill(0);
}

// whether a term with this head needs no sign, or its operation has a proper one
fn is_bound(binds: &[u8; 64], h: u32) -> bool
    ensures { result ≡ bound_head binds.now h }
{
    if h / 64 == 0 {
        let o = numbers::size_u32(h % 64);
        return binds[o] > 0;
    }
    true
}

fn mark_children(runs: &[u64], marks: &mut [u16], from: usize, to: usize)
    requires { (from ≤ to) × (to ≤ length runs.now) × (to ≤ 65536) × ChildrenBelow runs.now from to (length marks.old) }
    ensures { marks.new ≡ mark_all marks.old (part runs.now from (to - from)) }
{
    for i in from..to {
        stores::put_u16(marks, terms::child(runs[i]), 1);
    }
}

// term c, where it is marked: its children are marked, and it is judged
fn visit(binds: &[u8; 64], terms: &[u32], runs: &[u64], marks: &mut [u16], c: usize) -> bool
    requires { Holds terms.now runs.now × (c < count_in terms.now) × (count_in terms.now ≤ length marks.old) }
    ensures { (result ≡ bound_at binds.now terms.now marks.old c) × (marks.new ≡ marks_at terms.now runs.now marks.old c) }
{
    if marks[c] == 0 {
        return true;
    }
    mark_children(
        runs,
        marks,
        terms::first(terms, c),
        terms::first(terms, c + 1),
    );
    is_bound(binds, terms::head(terms, c))
}

// from the root down: children stand below
fn judge(binds: &[u8; 64], terms: &[u32], runs: &[u64], marks: &mut [u16], root: usize) -> bool
    requires { Holds terms.now runs.now × (root < count_in terms.now) × (count_in terms.now ≤ length marks.old) × Unmarked (count_in terms.now) marks.old }
    ensures { Judged binds.now terms.now runs.now root marks.old marks.new result }
{
    stores::put_u16(marks, root, 1);
    let mut c = root + 1;
    // down from the root; over a reversed range the proof would speak of the numbers so far and not of c
    while c > 0 {
        c -= 1;
        if !visit(binds, terms, runs, marks, c) {
            return false;
        }
    }
    true
}

// Whether every operation in the root's term has a proper sign of its own and precedence, as the bindings say.
pub fn all_signed(
    binds: &[u8; 64],
    terms: &[u32],
    runs: &[u64],
    marks: &mut [u16],
    root: usize,
) -> bool
    requires { Holds terms.now runs.now × (root < count_in terms.now) × (count_in terms.now ≤ length marks.old) }
    ensures { (result ≡ true ↔ AllBound binds.now (pool_of terms.now runs.now) root) × (marks.new ≡ cleared (count_in terms.now) marks.old) }
{
    let n = terms::count(terms);
    clear_marks(marks, n);
    let r = judge(binds, terms, runs, marks, root);
    clear_marks(marks, n);
    r
}
