// The form of a term on a card: a literal; an operation's sign between two children; a list or a marked place.
#![tactic(auto)]

ghost use Rattle.std.specs.Prelude.{◌≡◌, true, ◌+◌, ◌*◌, ◌-◌, ◌%◌, ◌≤◌, ◌<◌, eqb, length};
ghost use Rattle.spec.specs.Pool.{expanded_length};
ghost use Rattle.formula.specs.Card.{proper};
ghost use Rattle.terms.specs.Buffers.{count_in, pool_of};
ghost use Rattle.terms.specs.Chains.{Holds};
ghost use Rattle.card_forms.specs.Forms.{infix_of, runs_at, Counted, AllSigned, FormOf, form_of};

// a child with its surrounding precedence
#[derive(Clone, Copy)]
pub struct Operand {
    pub term: usize,
    pub level: usize,
}

// a sign between two children, and whether brackets stand round the whole
#[derive(Clone, Copy)]
pub struct Infix {
    pub operation: usize,
    pub left: Operand,
    pub right: Operand,
    pub bracketed: bool,
}

// a literal's value and operation; a sign between; a list or a marked place by its head, and where its runs stand
#[derive(Clone, Copy)]
pub enum Form {
    Literal(u32, u32),
    Between(Infix),
    Series(u32, usize, usize),
}

fn sign_between(table: &[u8], left: usize, right: usize, o: usize, m: usize) -> Infix
    requires { proper table.now o ≡ true }
    ensures { result ≡ infix_of table.now left right o m }
{
    let p = signs::precedence(table, o);
    let x = Operand {
        term: left,
        level: signs::left_level(table, p),
    };
    let y = Operand {
        term: right,
        level: signs::right_level(table, p),
    };
    Infix {
        operation: o,
        left: x,
        right: y,
        bracketed: p < m,
    }
}

// "Terms with exactly two children": one run of 2, or two runs of 1
fn is_pair(runs: &[u64], from: usize, to: usize) -> bool
    requires { (from ≤ to) × (to ≤ length runs.now) × Counted runs.now from to }
    ensures { result ≡ eqb (expanded_length (runs_at runs.now from to)) 2 }
{
    if to - from == 1 {
        return terms::times(runs[from]) == 2;
    }
    if to - from == 2 {
        let n = terms::times(runs[from]);
        return n + terms::times(runs[from + 1]) == 2;
    }
    false
}

// The form of term a where m is the surrounding precedence.
pub fn form_of(table: &[u8], terms: &[u32], runs: &[u64], a: usize, m: usize) -> Form
    requires { Holds terms.now runs.now × (a < count_in terms.now) × AllSigned table.now (pool_of terms.now runs.now) a }
    ensures { (result ≡ form_of table.now terms.now runs.now m a) × FormOf table.now terms.now runs.now m a result }
{
    let h = terms::head(terms, a);
    if h / 64 == 1 {
        return Form::Literal(terms::value(terms, a), h % 64);
    }
    let from = terms::first(terms, a);
    let to = terms::first(terms, a + 1);
    if h / 64 == 2 {
        return Form::Series(h, from, to);
    }
    if is_pair(runs, from, to) {
        let o = numbers::size_u32(h % 64);
        let left = terms::child(runs[from]);
        return Form::Between(sign_between(table, left, terms::child(runs[to - 1]), o, m));
    }
    Form::Series(h, from, to)
}
