// The card of a pool's last term: its signs judged, then written or refused.
#![tactic(auto)]

ghost use Rattle.std.specs.Prelude.{◌-◌, ◌≤◌, ◌<◌, ◌≡◌, length};
ghost use Rattle.formula.specs.Lexer.{write_card};
ghost use Rattle.terms.specs.Buffers.{count_in, pool_of};
ghost use Rattle.terms.specs.Chains.{Holds};
ghost use Rattle.card_judge.specs.Bound.{cleared};
ghost use Rattle.card_contract.specs.Calls.{Answers};
ghost use Rattle.last_card.specs.LastLaws.{answer_as};

use card_contract::Answer;
use card_writer::Unwritten;

// what was written, as the answer
fn answer_of(w: Result<usize, Unwritten>) -> Answer
    ensures { result ≡ answer_as w }
{
    match w {
        Ok(n) => Answer::Text(n),
        Err(Unwritten::Unsigned) => Answer::Refused(18),
        Err(Unwritten::Full) => Answer::Refused(14),
    }
}

// The last term's card, or 18 or 14 with the output as it was; the marks of the pool's terms are cleared.
pub fn write_last(
    table: &[u8],
    terms: &[u32],
    runs: &[u64],
    marks: &mut [u16],
    out: &mut [u8],
) -> Answer
    requires { Holds terms.now runs.now × (0 < count_in terms.now) × (count_in terms.now ≤ length marks.old) }
    ensures { Answers (write_card table.now (pool_of terms.now runs.now) (count_in terms.now - 1) (length out.old)) out.old out.new result × (marks.new ≡ cleared (count_in terms.now) marks.old) }
{
    let mut binds = [0u8; 64];
    sign_judge::judge(table, &mut binds);
    let root = terms::count(terms) - 1;
    let w = card_writer::write_card(table, &binds, terms, runs, marks, out, root);
    answer_of(w)
}
