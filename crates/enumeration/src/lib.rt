// The enumeration of the structural actions of two classes, produced again from the image when wanted: left members outermost, right members, straight before crossed.
#![tactic(auto)]

ghost use Rattle.std.specs.Prelude.{◌≡◌, ◌≤◌, ◌<◌, eqb};
ghost use Rattle.spec.specs.Image.{tables_of};
ghost use Rattle.laws.specs.Valid.{Valid};
ghost use Rattle.image.specs.Loaded.{Loaded};
ghost use Rattle.enumeration.specs.Seek.{start_of, seek_of, seek_right_of};

use actions::State;
use alignment::aligned;
use classes::{first_member, members_of};
use image::Image;

// "A class paired with itself has no actions."
pub fn itself(l: usize, r: usize) -> bool
    ensures { result ≡ eqb l r }
{
    l == r
}

// Before the first action.
pub fn start(s: &[u8], im: Image, l: usize, r: usize) -> State
    requires { Loaded s.now im × Valid (tables_of s.now) × (l < im.classes) × (r < im.classes) }
    ensures { result ≡ start_of (tables_of s.now) l r }
{
    let span = members_of(s, im, l);
    let right = first_member(s, im, r);
    if itself(l, r) {
        return State {
            left: span.to,
            right,
            past: 0,
        };
    }
    State {
        left: span.from,
        right,
        past: 0,
    }
}

// The next action of the left member at w with a right member before `to`.
fn seek_right(s: &[u8], im: Image, to: usize, w: State) -> Option<State>
    requires { Loaded s.now im × Valid (tables_of s.now) × (w.left < im.members) × (to ≤ im.members) }
    ensures { result ≡ seek_right_of (tables_of s.now) to w }
{
    let mut past = w.past;
    for right in w.right..to {
        if past < aligned(s, im, w.left, right) {
            return Some(State {
                left: w.left,
                right,
                past,
            });
        }
        past = 0;
    }
    None
}

// The next action at or behind w.
pub fn seek(s: &[u8], im: Image, l: usize, r: usize, w: State) -> Option<State>
    requires { Loaded s.now im × Valid (tables_of s.now) × (l < im.classes) × (r < im.classes) }
    ensures { result ≡ seek_of (tables_of s.now) l r w }
{
    let to = members_of(s, im, l).to;
    let right = members_of(s, im, r);
    let mut v = w;
    // no range: a place of three numbers goes on
    while v.left < to {
        if let Some(x) = seek_right(s, im, right.to, v) {
            return Some(x);
        }
        v = State {
            left: v.left + 1,
            right: right.from,
            past: 0,
        };
    }
    None
}
