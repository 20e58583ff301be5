// The length of a card before it is written, up to the room that there is.
#![tactic(auto)]

ghost use Rattle.std.specs.Prelude.{◌≡◌, ◌++◌, ◌+◌, ◌*◌, ◌-◌, ◌/◌, ◌%◌, ◌≤◌, ◌<◌, length};
ghost use Rattle.spec.specs.Bytes.{pick};
ghost use Rattle.formula.specs.Card.{operations};
ghost use Rattle.terms.specs.Buffers.{count_in, pool_of};
ghost use Rattle.terms.specs.Chains.{Holds};
ghost use Rattle.card_forms.specs.Forms.{card_text, AllSigned, literal_text, open_text, shut_text, sign_text, opening_text, gap_text, closing_text};
ghost use Rattle.card_widths.specs.Rooms.{room_after, run_width};

use card_forms::{Form, form_of};
use decimals::digits;

// ---- taking from a room: what is left of it; None: the text is longer
fn charge(room: usize, w: usize) -> Option<usize>
    ensures { result ≡ room_after room w }
{
    room.checked_sub(w)
}

// w bytes n times
fn charge_times(room: usize, w: usize, n: u64) -> Option<usize>
    ensures { result ≡ room_after room (w * n) }
{
    let all = w.checked_mul(numbers::size_u64(n))?;
    charge(room, all)
}

// ---- the widths of what stands round children and between them
fn literal_width(v: u32, o: u32) -> usize
    ensures { result ≡ length (literal_text v o) }
{
    let a = digits(numbers::long_u32(v));
    a + 1 + digits(numbers::long_u32(o))
}

fn infix_width(table: &[u8], o: usize, bracketed: bool) -> usize
    requires { o < operations table.now }
    ensures { result ≡ length (open_text bracketed) + length (sign_text table.now o) + length (shut_text bracketed) }
{
    let n = signs::sign_length(table, o);
    if bracketed {
        return n + 4;
    }
    n + 2
}

fn ends_width(table: &[u8], h: u32) -> usize
    requires { (h / 64 ≡ 2 → ⊥) → h % 64 < operations table.now }
    ensures { result ≡ length (opening_text table.now h) + length (closing_text h) }
{
    if h / 64 == 2 {
        return 2;
    }
    signs::sign_length(table, numbers::size_u32(h % 64)) + 2
}

fn gap_width(h: u32) -> usize
    ensures { result ≡ length (gap_text h) }
{
    if h / 64 == 2 {
        return 3;
    }
    2
}

// how many gaps a run of n has: none before the first child
fn gaps(n: u64, first: bool) -> u64
    requires { 1 ≤ n }
    ensures { result ≡ pick first (n - 1) n }
{
    if first {
        return n - 1;
    }
    n
}

// what a run of n children of w bytes has beside the first child
fn charge_run(room: usize, w: usize, h: u32, n: u64, first: bool) -> Option<usize>
    requires { 1 ≤ n }
    ensures { result ≡ room_after room (run_width first (length (gap_text h)) w n) }
{
    let b = charge_times(room, gap_width(h), gaps(n, first))?;
    charge_times(b, w, n - 1)
}

// What is left of a room behind the text of term a, where m is the surrounding precedence; None: the text is longer.
pub fn measure(
    table: &[u8],
    terms: &[u32],
    runs: &[u64],
    a: usize,
    m: usize,
    room0: usize,
) -> Option<usize>
    requires { Holds terms.now runs.now × (a < count_in terms.now) × AllSigned table.now (pool_of terms.now runs.now) a }
    ensures { result ≡ room_after room0 (length (card_text table.now (pool_of terms.now runs.now) m a)) }
{
    let form = form_of(table, terms, runs, a, m);
    match form {
        Form::Literal(v, o) => charge(room0, literal_width(v, o)),
        Form::Between(x) => {
            let b = charge(room0, infix_width(table, x.operation, x.bracketed))?;
            let c = measure(table, terms, runs, x.left.term, x.left.level, b)?;
            measure(table, terms, runs, x.right.term, x.right.level, c)
        }
        Form::Series(h, from, to) => {
            let mut room = charge(room0, ends_width(table, h))?;
            for i in from..to {
                let b = measure(table, terms, runs, terms::child(runs[i]), 0, room)?;
                room = charge_run(b, room - b, h, terms::times(runs[i]), i == from)?;
            }
            Some(room)
        }
    }
}
