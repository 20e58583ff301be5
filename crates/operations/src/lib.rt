// The readers of the image's table of operations.
#![tactic(auto)]

ghost use Rattle.std.specs.Prelude.{◌≡◌, ◌<◌};
ghost use Rattle.spec.specs.Image.{tables_of, the_operation};
ghost use Rattle.image.specs.Loaded.{Loaded};

use image::{Image, be2};
use numbers::size_u8;

pub fn kind(s: &[u8], im: Image, o: usize) -> usize
    requires { Loaded s.now im × (o < im.operations) }
    ensures { (result ≡ (the_operation (tables_of s.now) o).kind) × (result < 256) }
{
    size_u8(s[Image::HEADER + o * Image::OPERATION_BYTES])
}

pub fn flag(s: &[u8], im: Image, o: usize) -> usize
    requires { Loaded s.now im × (o < im.operations) }
    ensures { (result ≡ (the_operation (tables_of s.now) o).flag) × (result < 256) }
{
    size_u8(s[Image::HEADER + o * Image::OPERATION_BYTES + 1])
}

// the class, or 65,535 for none
pub fn identity(s: &[u8], im: Image, o: usize) -> usize
    requires { Loaded s.now im × (o < im.operations) }
    ensures { (result ≡ (the_operation (tables_of s.now) o).identity) × (result < 65536) }
{
    be2(s, Image::HEADER + o * Image::OPERATION_BYTES + 2)
}
