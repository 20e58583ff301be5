// A node's key: the chain of the pool in which its term stands.
#![tactic(auto)]

ghost use Rattle.std.specs.Prelude.{◌≡◌, ◌≤◌, ◌<◌, length};
ghost use Rattle.terms.specs.Buffers.{BUCKETS, part};
ghost use Rattle.terms.specs.Chains.{mix_of, fold, key_of};

fn mix(x: u64, r: u64) -> u64
    requires { x < 4294967296 }
    ensures { (result ≡ mix_of x r) × (result < 4294967296) }
{
    (x * 31 + r % 4294967296 + r / 4294967296) % 4294967296
}

fn folded(x: u64) -> usize
    requires { x < 4294967296 }
    ensures { (result ≡ fold x) × (result < BUCKETS) }
{
    numbers::size_u64((x + x / 1024 + x / 1048576) % 1024)
}

pub fn key(list: &[u64], n: usize, h: u32, v: u32) -> usize
    requires { n ≤ length list.now }
    ensures { (result ≡ key_of h v (part list.now 0 n)) × (result < BUCKETS) }
{
    let mut x = (numbers::long_u32(h) * 4096 + numbers::long_u32(v)) % 4294967296;
    for r in &list[..n] {
        x = mix(x, *r);
    }
    folded(x)
}
