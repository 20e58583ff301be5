// The image: its type with limits and entry widths as constants, where its tables start, and its big-endian numbers.
#![tactic(auto)]

ghost use Rattle.std.specs.Prelude.{◌≡◌, ◌+◌, ◌≤◌, ◌<◌, length};
ghost use Rattle.spec.specs.Bytes as b;
ghost use Rattle.image.specs.Layout.{layout_of};

use numbers::{long_size, size_u8};

// How many entries each table has, and the bytes at which class 0, member 0 and child 0 stand.
#[derive(Clone, Copy)]
pub struct Image {
    pub operations: usize,
    pub classes: usize,
    pub members: usize,
    pub children: usize,
    pub class0: usize,
    pub member0: usize,
    pub child0: usize,
}

// Entries of a table, from the first to before the last.
#[derive(Clone, Copy)]
pub struct Span {
    pub from: usize,
    pub to: usize,
}

impl Image {
    pub const OPERATIONS: usize = 64;

    pub const CLASSES: usize = 256;

    pub const MEMBERS: usize = 1024;

    pub const CHILDREN: usize = 4096;

    // bytes of the header and of an entry
    pub const HEADER: usize = 13;

    pub const OPERATION_BYTES: usize = 4;

    pub const CLASS_BYTES: usize = 10;

    pub const MEMBER_BYTES: usize = 10;

    pub const VERSION: u8 = 1;

    // the children of a member
    pub const ARITY: usize = 64;

    // marks an operation without an identity class
    pub const NO_IDENTITY: usize = 65535;

    pub const BEST_SIZE: u64 = 2147483646;

    // The layout of an image with these counts, which are 2-byte numbers.
    pub fn of(operations: usize, classes: usize, members: usize, children: usize) -> Image
        requires { (operations ≤ 65535) × (classes ≤ 65535) × (members ≤ 65535) }
        ensures { result ≡ layout_of operations classes members children }
    {
        let class0 = Image::HEADER + operations * Image::OPERATION_BYTES;
        let member0 = class0 + classes * Image::CLASS_BYTES;
        let child0 = member0 + members * Image::MEMBER_BYTES;
        Image {
            operations,
            classes,
            members,
            children,
            class0,
            member0,
            child0,
        }
    }
}

// "Big-endian."
pub fn be2(s: &[u8], at: usize) -> usize
    requires { at + 2 ≤ length s.now }
    ensures { (result ≡ b.be2 s.now at) × (result < 65536) }
{
    size_u8(s[at]) * 256 + size_u8(s[at + 1])
}

pub fn be4(s: &[u8], at: usize) -> u64
    requires { at + 4 ≤ length s.now }
    ensures { (result ≡ b.be4 s.now at) × (result < 4294967296) }
{
    long_size(be2(s, at)) * 65536 + long_size(be2(s, at + 2))
}
