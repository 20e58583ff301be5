// What a pair has before the rounds, and what a run reports that is cut short there.
#![tactic(auto)]

ghost use Rattle.std.specs.Prelude.{◌≡◌, ◌<◌};
ghost use Rattle.spec.specs.Image.{tables_of};
ghost use Rattle.spec.specs.Round.{starting_quality};
ghost use Rattle.laws.specs.Valid.{Valid};
ghost use Rattle.query.specs.Settings.{asked_of};
ghost use Rattle.image.specs.Loaded.{Loaded};
ghost use Rattle.starting.specs.Report.{started_in};

use image::Image;
use numbers::{short_u64, size_u16};
use outcome::Outcome;
use query::Query;

// ---- before the rounds a pair has the best sizes of its classes, and no mass where both are one
pub fn start_size(s: &[u8], im: Image, l: usize, r: usize) -> u32
    requires { Loaded s.now im × Valid (tables_of s.now) × (l < im.classes) × (r < im.classes) }
    ensures { result ≡ (starting_quality (tables_of s.now) (l, r)).0 }
{
    let a = classes::best_size(s, im, l);
    if l == r {
        return short_u64(a);
    }
    let b = classes::best_size(s, im, r);
    short_u64(a + b)
}

pub fn start_mass(s: &[u8], im: Image, l: usize, r: usize) -> u32
    requires { Loaded s.now im × Valid (tables_of s.now) × (l < im.classes) × (r < im.classes) }
    ensures { result ≡ (starting_quality (tables_of s.now) (l, r)).1 }
{
    if l == r {
        return 0;
    }
    let a = classes::best_size(s, im, l);
    let b = classes::best_size(s, im, r);
    short_u64(a + b)
}

// What a run that is cut short before its rounds reports: all checks of its budget passed.
pub fn report_started(s: &[u8], im: Image, q: Query, n: usize, root: usize) -> Outcome
    requires { Loaded s.now im × Valid (tables_of s.now) × (q.left < im.classes) × (q.right < im.classes) }
    ensures { result ≡ started_in (tables_of s.now) (asked_of q) n root q.budget }
{
    let l = size_u16(q.left);
    let r = size_u16(q.right);
    Outcome {
        complete: false,
        pairs: n,
        rounds: 0,
        size: start_size(s, im, l, r),
        mass: start_mass(s, im, l, r),
        root,
        checks: q.budget,
    }
}
