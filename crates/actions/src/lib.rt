// A place among the structural actions of two classes, and the action there, read from the image (actions.rs under `without_ac_actions`).
#![tactic(auto)]

ghost use Rattle.std.specs.Prelude.{◌≡◌, ◌≤◌, ◌<◌, length, get_or};
ghost use Rattle.spec.specs.Image.{tables_of};
ghost use Rattle.laws.specs.Valid.{Valid};
ghost use Rattle.image.specs.Loaded.{Loaded};
ghost use Rattle.actions.specs.Place.{Stands, action_at, after_of};

use image::Image;
use members::{child_class, child_count, first_child, member_op};

// A place among the actions of two classes: a member of each by its number in the image, and how many of the two members' actions are past.
#[derive(Clone, Copy)]
pub struct State {
    pub left: usize,
    pub right: usize,
    pub past: usize,
}

impl State {
    // Behind the action here.
    pub fn after(self) -> State
        requires { self.past < 2 }
        ensures { result ≡ after_of self }
    {
        State {
            left: self.left,
            right: self.right,
            past: self.past + 1,
        }
    }
}

// ---- the action at a state
pub fn op(s: &[u8], im: Image, v: State) -> usize
    requires { Loaded s.now im × Valid (tables_of s.now) × Stands (tables_of s.now) v }
    ensures { (result ≡ (action_at (tables_of s.now) v).op) × (result < im.operations) }
{
    member_op(s, im, v.left)
}

// How many pairs of classes it joins.
pub fn count(s: &[u8], im: Image, v: State) -> usize
    requires { Loaded s.now im × Valid (tables_of s.now) × Stands (tables_of s.now) v }
    ensures { (result ≡ length (action_at (tables_of s.now) v).pairs) × (result ≤ 64) }
{
    child_count(s, im, v.left)
}

// The left class of pair k.
pub fn left_class(s: &[u8], im: Image, v: State, k: usize) -> usize
    requires { Loaded s.now im × Valid (tables_of s.now) × Stands (tables_of s.now) v × (k < length (action_at (tables_of s.now) v).pairs) }
    ensures { (result ≡ (get_or (action_at (tables_of s.now) v).pairs k (0, 0)).0) × (result < im.classes) }
{
    child_class(s, im, first_child(s, im, v.left) + k)
}

// The right class of pair k: the other child where the action is crossed.
pub fn right_class(s: &[u8], im: Image, v: State, k: usize) -> usize
    requires { Loaded s.now im × Valid (tables_of s.now) × Stands (tables_of s.now) v × (k < length (action_at (tables_of s.now) v).pairs) }
    ensures { (result ≡ (get_or (action_at (tables_of s.now) v).pairs k (0, 0)).1) × (result < im.classes) }
{
    let i = first_child(s, im, v.right);
    if v.past == 0 {
        return child_class(s, im, i + k);
    }
    child_class(s, im, i + 1 - k)
}
