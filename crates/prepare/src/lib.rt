// Before the pair table: refusals 2 to 11 (and 13 where the graph's array has no room for the classes), the root's starting term, and building.
#![tactic(auto)]

ghost use Rattle.std.specs.Prelude.{◌≡◌, ◌≤◌};
ghost use Rattle.spec.specs.Bytes.{ok};
ghost use Rattle.spec.specs.Image.{image_of, tables_of};
ghost use Rattle.image.specs.Loaded.{Loaded};
ghost use Rattle.query.specs.Settings.{limits_of};
ghost use Rattle.terms.specs.Chains.{Rooms};
ghost use Rattle.prepare.specs.Preparing.{room_for, Prepares};

use image::Image;
use judge::{Verdict, judge};
use numbers::size_u16;
use prepared::Prepared;
use query::{Limits, Query};

// Whether an array of `len` numbers has room for the graph of the image.
fn has_room(lim: Limits, im: Image, len: usize) -> bool
    requires { (im.classes ≤ 256) × (lim.pairs ≤ 4096) }
    ensures { result ≡ room_for (limits_of lim) im.classes len }
{
    arrays::keys(im.classes) + lim.pairs <= len
}

// 11, 13 for want of room, the root's starting term, and building.
fn start(
    lim: Limits,
    s: &[u8],
    im: Image,
    q: Query,
    graph: &mut [u16],
    terms: &mut [u32],
    runs: &mut [u64],
) -> Prepared
    requires { Loaded s.now im × (image_of s.now ≡ ok (tables_of s.now)) × (lim.pairs ≤ 4096) × Rooms (limits_of lim) terms.old runs.old }
    ensures { Prepares (limits_of lim) s.now q result graph.old terms.old runs.old graph.new terms.new runs.new }
{
    if size_u16(q.left) >= im.classes {
        return Prepared::Refused(11);
    }
    if size_u16(q.right) >= im.classes {
        return Prepared::Refused(11);
    }
    if has_room(lim, im, graph.len()) {
        let b = beginning::begin(lim, s, im, q, graph, terms, runs);
        return Prepared::Go(im, b);
    }
    Prepared::Refused(13)
}

// 2 to 11, 13 for want of room, the root's starting term, and building.
pub fn prepare(
    lim: Limits,
    s: &[u8],
    q: Query,
    graph: &mut [u16],
    terms: &mut [u32],
    runs: &mut [u64],
) -> Prepared
    requires { (lim.pairs ≤ 4096) × Rooms (limits_of lim) terms.old runs.old }
    ensures { Prepares (limits_of lim) s.now q result graph.old terms.old runs.old graph.new terms.new runs.new }
{
    let v = judge(s);
    match v {
        Verdict::Refused(k) => Prepared::Refused(k),
        Verdict::Doubled(c) => Prepared::Doubled(c),
        Verdict::Accepted(im) => start(lim, s, im, q, graph, terms, runs),
    }
}
