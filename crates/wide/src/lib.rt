// Signed numbers of two 64-bit words, two's complement: the path costs of transport.rs (`i128`, `u128`).
#![tactic(auto)]

ghost use Rattle.std.specs.Prelude.{◌≡◌, ◌+◌, ◌*◌, ◌/◌, ◌%◌, ◌^◌, ◌<◌, pos, ◌+ℤ◌, ◌*ℤ◌, int_lt};
ghost use Rattle.wide.specs.Value.{val, unsigned, Within, weight_of, weigh_of};
ghost use Rattle.wide.specs.Wrap.{add_words, neg_words};

#[derive(Clone, Copy)]
pub struct Wide {
    pub lo: u64,
    pub hi: u64,
}

// A word and what goes over to the next one.
#[derive(Clone, Copy)]
struct Sum {
    word: u64,
    carry: u64,
}

// a + b + k: the low words' sum wraps, and the carry is found by comparison.
fn add_word(a: u64, b: u64, k: u64) -> Sum
    requires { k < 2 }
    ensures { (a + b + k ≡ result.word + 2 ^ 64 * result.carry) × (result.carry < 2) }
{
    let s = std::num::wrapping_add_u64(a, b);
    let t = std::num::wrapping_add_u64(s, k);
    if s < a {
        Sum { word: t, carry: 1 }
    } else if t < s {
        Sum { word: t, carry: 1 }
    } else {
        Sum { word: t, carry: 0 }
    }
}

// a - b - k: the difference wraps, and the borrow is found by comparison.
fn sub_word(a: u64, b: u64, k: u64) -> Sum
    requires { k < 2 }
    ensures { (a + 2 ^ 64 * result.carry ≡ result.word + b + k) × (result.carry < 2) }
{
    let s = std::num::wrapping_sub_u64(a, b);
    let t = std::num::wrapping_sub_u64(s, k);
    if a < b {
        Sum { word: t, carry: 1 }
    } else if s < k {
        Sum { word: t, carry: 1 }
    } else {
        Sum { word: t, carry: 0 }
    }
}

// The halves of a word.
fn low(x: u64) -> u64
    ensures { result ≡ x % 2 ^ 32 }
{
    x % 0x1_0000_0000
}

fn high(x: u64) -> u64
    ensures { result ≡ x / 2 ^ 32 }
{
    x / 0x1_0000_0000
}

// a * b + c + d, of halves: it fits a word.
fn half_mul(a: u64, b: u64, c: u64, d: u64) -> u64
    requires { (a < 2 ^ 32) × (b < 2 ^ 32) × (c < 2 ^ 32) × (d < 2 ^ 32) }
    ensures { result ≡ a * b + c + d }
{
    a * b + c + d
}

// a * k, of a word and a half.
fn mul_half(a: u64, k: u64) -> Wide
    requires { k < 2 ^ 32 }
    ensures { unsigned result ≡ a * k }
{
    let w = half_mul(low(a), k, 0, 0);
    let t = half_mul(high(a), k, high(w), 0);
    Wide {
        lo: low(w) + 0x1_0000_0000 * low(t),
        hi: high(t),
    }
}

impl Wide {
    fn of(x: u64) -> Wide
        ensures { val result ≡ pos x }
    {
        Wide { lo: x, hi: 0 }
    }

    // The sum and the negation of any two words, at all values: what passes 2^128 is lost.
    pub fn wrapping_add(self, b: Wide) -> Wide
        ensures { result ≡ add_words self b }
    {
        let under = add_word(self.lo, b.lo, 0);
        let over = add_word(self.hi, b.hi, under.carry);
        Wide {
            lo: under.word,
            hi: over.word,
        }
    }

    pub fn wrapping_neg(self) -> Wide
        ensures { result ≡ neg_words self }
    {
        let under = sub_word(0, self.lo, 0);
        let over = sub_word(0, self.hi, under.carry);
        Wide {
            lo: under.word,
            hi: over.word,
        }
    }

    // The sum of values that are small enough.
    fn add(self, b: Wide) -> Wide
        requires { Within 118 self × Within 118 b }
        ensures { val result ≡ val self +ℤ val b }
    {
        self.wrapping_add(b)
    }

    // Whether self < b: the high words with the top bit turned, so that numbers below zero come first, then the low words.
    pub fn less(self, b: Wide) -> bool
        ensures { result ≡ int_lt (val self) (val b) }
    {
        let x = std::num::wrapping_add_u64(self.hi, 0x8000_0000_0000_0000);
        let y = std::num::wrapping_add_u64(b.hi, 0x8000_0000_0000_0000);
        if x < y {
            return true;
        }
        if y < x {
            return false;
        }
        self.lo < b.lo
    }

    fn times(self, k: u32) -> Wide
        requires { Within 86 self }
        ensures { val result ≡ val self *ℤ pos k }
    {
        let p = mul_half(self.lo, k as u64);
        let q = mul_half(self.hi, k as u64);
        let h = add_word(p.hi, q.lo, 0);
        Wide {
            lo: p.lo,
            hi: h.word,
        }
    }

    // W = F * V + 1
    pub fn weight(f: u64, v: u32) -> Wide
        ensures { val result ≡ pos (weight_of f v) }
    {
        let p = Wide::of(f).times(v);
        p.add(Wide::of(1))
    }

    // What a cell costs: size * W + mass.
    pub fn weigh(size: u32, mass: u32, w: Wide) -> Wide
        requires { Within 86 w }
        ensures { val result ≡ weigh_of (val w) (pos size) (pos mass) }
    {
        let p = w.times(size);
        p.add(Wide::of(mass as u64))
    }
}
