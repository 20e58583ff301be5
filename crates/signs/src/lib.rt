// A sign table's entry of an operation: its sign's length and bytes, its precedence, and the surrounding precedence of its children.
#![tactic(auto)]

ghost use Rattle.std.specs.Prelude.{◌≡◌, ◌+◌, ◌*◌, ◌≤◌, ◌<◌, length};
ghost use Rattle.formula.specs.Card.{operations, sign_field, sign, prec_of, left_level, right_level};

// How many operations the table has: whole entries, at most 64.
pub fn operations(table: &[u8]) -> usize
    ensures { result ≡ operations table.now }
{
    if table.len() < 9 {
        return 0;
    }
    let n = (table.len() - 9) / 9;
    if n < 64 {
        return n;
    }
    64
}

// The eight bytes of an operation's sign, the table's from place 9 + 9 * o on.
fn sign_field(table: &[u8], o: usize) -> &[u8]
    requires { o < operations table.now }
    ensures { result.now ≡ sign_field table.now o }
{
    let at = 9 + 9 * o;
    &table[at..at + 8]
}

// The length of an operation's sign.
pub fn sign_length(table: &[u8], o: usize) -> usize
    requires { o < operations table.now }
    ensures { (result ≡ length (sign table.now o)) × (result ≤ 8) }
{
    sign_field(table, o)
        .iter()
        .position(|b| *b == 0)
        .unwrap_or(8)
}

// "and its precedence"
pub fn precedence(table: &[u8], o: usize) -> usize
    requires { o < operations table.now }
    ensures { (result ≡ prec_of table.now o) × (result < 256) }
{
    numbers::size_u8(table[17 + 9 * o])
}

// "(0 groups it to the left, any other to the right)": the surrounding precedence of a left child
pub fn left_level(table: &[u8], p: usize) -> usize
    requires { (1 ≤ p) × (p ≤ 9) × (9 ≤ length table.now) }
    ensures { result ≡ left_level table.now p }
{
    if table[p - 1] == 0 {
        return p;
    }
    p + 1
}

// and of a right child
pub fn right_level(table: &[u8], p: usize) -> usize
    requires { (1 ≤ p) × (p ≤ 9) × (9 ≤ length table.now) }
    ensures { result ≡ right_level table.now p }
{
    if table[p - 1] == 0 {
        return p + 1;
    }
    p
}
