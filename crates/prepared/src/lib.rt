// What a call has come to before the pair table, and how many pairs its graph has.
#![tactic(auto)]

ghost use Rattle.std.specs.Prelude.{◌≡◌, ◌≤◌};
ghost use Rattle.prepared.specs.Pairs.{pairs_begun, pairs_of, keys_of, counted_as, skipped_of};

use budget::Budget;
use image::Image;
use pair_count::Count;

// a refusal, 13 or 12; cut short in building, with the root's starting term; the root's starting term, the number of pairs, the budget left; both with the number of monomial pairs passed over
#[derive(Clone, Copy)]
pub enum Begun {
    Stopped(u8),
    Cut(usize, u64),
    All(usize, usize, Budget, u64),
}

// A refusal; 10 with the lowest class that holds a literal that also stands in another; the image and what the run has begun.
#[derive(Clone, Copy)]
pub enum Prepared {
    Refused(u8),
    Doubled(usize),
    Go(Image, Begun),
}

fn pairs_begun(b: Begun) -> usize
    ensures { result ≡ pairs_begun b }
{
    match b {
        Begun::Stopped(k) => 0,
        Begun::Cut(root, k) => 0,
        Begun::All(root, n, left, k) => n,
    }
}

// How many pairs the graph has where it is built in full.
pub fn pairs_of(p: Prepared) -> usize
    ensures { result ≡ pairs_of p }
{
    match p {
        Prepared::Refused(k) => 0,
        Prepared::Doubled(c) => 0,
        Prepared::Go(im, b) => pairs_begun(b),
    }
}

// Where the keys of its pairs begin.
pub fn keys_of(p: Prepared) -> usize
    requires { keys_of p ≤ 65536 }
    ensures { result ≡ keys_of p }
{
    match p {
        Prepared::Refused(k) => 0,
        Prepared::Doubled(c) => 0,
        Prepared::Go(im, b) => im.classes * im.classes,
    }
}

// What has begun, over as many pairs as the table counts.
pub fn counted(b: Begun, c: Count) -> Begun
    ensures { result ≡ counted_as b c.pairs }
{
    let n = pair_count::pairs_in(c);
    match b {
        Begun::Stopped(k) => Begun::Stopped(k),
        Begun::Cut(root, k) => Begun::Cut(root, k),
        Begun::All(root, m, left, k) => Begun::All(root, n, left, k),
    }
}

// How many monomial pairs were passed over in building.
pub fn skipped_of(b: Begun) -> u64
    ensures { result ≡ skipped_of b }
{
    match b {
        Begun::Stopped(k) => 0,
        Begun::Cut(root, k) => k,
        Begun::All(root, n, left, k) => k,
    }
}
