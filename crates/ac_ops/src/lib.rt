// "An MSet or Set operation of either class" (ac_repr.rs): the first one from an operation on.
#![tactic(auto)]

ghost use Rattle.std.specs.Prelude.{◌≡◌, ◌<◌, eqb};
ghost use Rattle.spec.specs.Bytes.{any};
ghost use Rattle.spec.specs.Image.{tables_of, members_of};
ghost use Rattle.laws.specs.Valid.{Valid};
ghost use Rattle.image.specs.Loaded.{Loaded};
ghost use Rattle.laws.specs.Firsts.{first_from};
ghost use Rattle.ac_ops.specs.AcOps.{ac_op};

use image::Image;

// ---- "An MSet or Set operation of either class"
fn has_op(s: &[u8], im: Image, c: usize, op: usize) -> bool
    requires { Loaded s.now im × Valid (tables_of s.now) × (c < im.classes) }
    ensures { result ≡ any (λ m. eqb m.op op) (members_of (tables_of s.now) c) }
{
    let span = classes::members_of(s, im, c);
    for i in span.from..span.to {
        if members::member_op(s, im, i) == op {
            return true;
        }
    }
    false
}

fn is_ac_op(s: &[u8], im: Image, l: usize, r: usize, op: usize) -> bool
    requires { Loaded s.now im × Valid (tables_of s.now) × (l < im.classes) × (r < im.classes) × (op < im.operations) }
    ensures { result ≡ ac_op (tables_of s.now) l r op }
{
    if !id::is_ac(operations::kind(s, im, op)) {
        return false;
    }
    if has_op(s, im, l, op) {
        return true;
    }
    has_op(s, im, r, op)
}

// The first operation from o on that acts by transport; the number of operations where there is none.
pub fn next_op(s: &[u8], im: Image, l: usize, r: usize, o: usize) -> usize
    requires { Loaded s.now im × Valid (tables_of s.now) × (l < im.classes) × (r < im.classes) }
    ensures { result ≡ first_from (ac_op (tables_of s.now) l r) o im.operations }
{
    for i in o..im.operations {
        if is_ac_op(s, im, l, r, i) {
            return i;
        }
    }
    o.max(im.operations)
}
