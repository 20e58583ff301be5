// Best terms and starting terms: the best term of each class is built once in the term pool and kept by its number plus 1.
#![tactic(auto)]

ghost use Rattle.std.specs.Prelude.{◌≡◌, ◌<◌, length, get_or};
ghost use Rattle.spec.specs.Image.{tables_of};
ghost use Rattle.laws.specs.Valid.{Valid};
ghost use Rattle.query.specs.Settings.{limits_of};
ghost use Rattle.image.specs.Loaded.{Loaded};
ghost use Rattle.terms.specs.Buffers.{pool_of};
ghost use Rattle.terms.specs.Chains.{Holds, Rooms};
ghost use Rattle.best_terms.specs.Bests.{Kept};
ghost use Rattle.best_terms.specs.Building.{Builds};
ghost use Rattle.best_terms.specs.Starting.{Makes, Starts};

use image::Image;
use query::Limits;
use term_clearing::clear;

// The best term of a class that is still unbuilt. A class waits for the first of its children's classes that is unbuilt; waiting: by class, the class that waits for it plus 1.
fn build_best_term(
    lim: Limits,
    s: &[u8],
    im: Image,
    terms: &mut [u32],
    runs: &mut [u64],
    best: &mut [u16],
    class: usize,
) -> Option<usize>
    requires { Holds terms.old runs.old × Loaded s.now im × Valid (tables_of s.now) × (class < im.classes) × (length best.old ≡ 256) × Kept (limits_of lim) (tables_of s.now) (pool_of terms.old runs.old) best.old × (get_or best.old class 0 ≡ 0) × Rooms (limits_of lim) terms.old runs.old }
    ensures { Builds (limits_of lim) (tables_of s.now) terms.old runs.old best.old class terms.new runs.new best.new result }
{
    let mut waiting = [0u16; 256];
    let mut c = class;
    // no range: down to a child's class that is unbuilt, back up to the class that waits when its term is built
    'outer: loop {
        let m = classes::best_member(s, im, c);
        let k = members::first_child(s, im, m);
        let n = members::child_count(s, im, m);
        for i in 0..n {
            let d = members::child_class(s, im, k + i);
            if stores::at_u16(best, d) == 0 {
                stores::put_u16(&mut waiting, d, c + 1);
                c = d;
                continue 'outer;
            }
        }
        let t = member_terms::member_term(lim, s, im, terms, runs, best, m)?;
        stores::put_u16(best, c, t + 1);
        let q = stores::at_u16(&waiting, c);
        if q == 0 {
            return Some(t);
        }
        c = q - 1;
    }
}

// The best term of a class, built once.
fn best_term(
    lim: Limits,
    s: &[u8],
    im: Image,
    terms: &mut [u32],
    runs: &mut [u64],
    best: &mut [u16],
    class: usize,
) -> Option<usize>
    requires { Holds terms.old runs.old × Loaded s.now im × Valid (tables_of s.now) × (class < im.classes) × (length best.old ≡ 256) × Kept (limits_of lim) (tables_of s.now) (pool_of terms.old runs.old) best.old × Rooms (limits_of lim) terms.old runs.old }
    ensures { Builds (limits_of lim) (tables_of s.now) terms.old runs.old best.old class terms.new runs.new best.new result }
{
    let b = stores::at_u16(best, class);
    if b == 0 {
        return build_best_term(lim, s, im, terms, runs, best, class);
    }
    Some(b - 1)
}

// The starting term of a pair of classes: the best term of one class, or the marked place of two best terms.
fn starting_term(
    lim: Limits,
    s: &[u8],
    im: Image,
    terms: &mut [u32],
    runs: &mut [u64],
    best: &mut [u16],
    l: usize,
    r: usize,
) -> Option<usize>
    requires { Holds terms.old runs.old × Loaded s.now im × Valid (tables_of s.now) × (l < im.classes) × (r < im.classes) × (length best.old ≡ 256) × Kept (limits_of lim) (tables_of s.now) (pool_of terms.old runs.old) best.old × Rooms (limits_of lim) terms.old runs.old }
    ensures { Makes (limits_of lim) (tables_of s.now) (l, r) terms.old runs.old best.old terms.new runs.new best.new result }
{
    let a = best_term(lim, s, im, terms, runs, best, l)?;
    if l == r {
        return Some(a);
    }
    let b = best_term(lim, s, im, terms, runs, best, r)?;
    marked::variants(lim, terms, runs, a, b)
}

// The starting term of a pair of classes; best keeps the best terms that it was made of. A refusal clears the buffers.
pub fn evaluate_generalize_action(
    lim: Limits,
    s: &[u8],
    im: Image,
    terms: &mut [u32],
    runs: &mut [u64],
    best: &mut [u16],
    l: usize,
    r: usize,
) -> Option<usize>
    requires { Holds terms.old runs.old × Loaded s.now im × Valid (tables_of s.now) × (l < im.classes) × (r < im.classes) × (length best.old ≡ 256) × Kept (limits_of lim) (tables_of s.now) (pool_of terms.old runs.old) best.old × Rooms (limits_of lim) terms.old runs.old }
    ensures { Starts (limits_of lim) (tables_of s.now) (l, r) terms.old runs.old best.old terms.new runs.new best.new result }
{
    let e = starting_term(lim, s, im, terms, runs, best, l, r);
    if e.is_none() {
        clear(terms, runs, best);
    }
    e
}
