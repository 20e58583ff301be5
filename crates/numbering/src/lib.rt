// The subterms of a root numbered, "in the order a left-to-right walk finishes it".
#![tactic(auto)]

ghost use Rattle.std.specs.Prelude.{◌≡◌, suc, ◌+◌, ◌*◌, ◌-◌, ◌≤◌, ◌<◌, length, get_or};
ghost use Rattle.spec.specs.Listing.{visit_term};
ghost use Rattle.terms.specs.Buffers.{count_in, pool_of};
ghost use Rattle.terms.specs.Chains.{Holds};
ghost use Rattle.numbering.specs.Numbering.{order_in, settle, cleared, numbers_of, Numbered, Walk, Listed};

// The work buffer has two numbers a term: at 2 * t the number of term t plus 1, at 2 * k + 1 the term of line k.

fn clear_marks(marks: &mut [u16], m: usize)
    requires { m ≤ length marks.old }
    ensures { marks.new ≡ cleared m marks.old }
{
    marks[..m].fill(0);
}

// term t gets number n
fn settle(marks: &mut [u16], n: usize, t: usize)
    requires { (2 * n + 1 < length marks.old) × (2 * t < length marks.old) × (n < 16384) × (t < 16384) }
    ensures { marks.new ≡ settle marks.old n t }
{
    stores::put_u16(marks, 2 * t, n + 1);
    stores::put_u16(marks, 2 * n + 1, t);
}

// t and its subterms that have no number yet get the numbers after n0, children first
fn number(terms: &[u32], runs: &[u64], marks: &mut [u16], n0: usize, t: usize) -> usize
    requires { Holds terms.now runs.now × (t < count_in terms.now) × Numbered (count_in terms.now) marks.old (order_in marks.old n0) }
    ensures { (result ≡ length (visit_term (suc t) (pool_of terms.now runs.now) t (order_in marks.old n0))) × Walk (count_in terms.now) marks.old (order_in marks.old n0) marks.new (visit_term (suc t) (pool_of terms.now runs.now) t (order_in marks.old n0)) }
{
    if marks[2 * t] != 0 {
        return n0;
    }
    let end = terms::first(terms, t + 1);
    let mut n = n0;
    for i in terms::first(terms, t)..end {
        n = number(terms, runs, marks, n, terms::child(runs[i]));
    }
    settle(marks, n, t);
    n + 1
}

// The root's subterms are numbered: how many they are.
pub fn number_all(terms: &[u32], runs: &[u64], marks: &mut [u16], root: usize) -> usize
    requires { Holds terms.now runs.now × (root < count_in terms.now) × (2 * count_in terms.now ≤ length marks.old) }
    ensures { (marks.new ≡ numbers_of terms.now runs.now root marks.old) × Listed terms.now runs.now marks.new root result }
{
    let m = terms::count(terms);
    clear_marks(marks, 2 * m);
    number(terms, runs, marks, 0, root)
}

// ---- reading
// the number of term t
pub fn number_of(marks: &[u16], t: usize) -> u64
    requires { 0 < get_or marks.now (2 * t) 0 }
    ensures { result ≡ get_or marks.now (2 * t) 0 - 1 }
{
    numbers::long_size(stores::at_u16(marks, 2 * t) - 1)
}

// the term of line k
pub fn term_at(marks: &[u16], k: usize) -> usize
    requires { 2 * k + 1 < length marks.now }
    ensures { result ≡ get_or marks.now (2 * k + 1) 0 }
{
    stores::at_u16(marks, 2 * k + 1)
}
