// A card read: 17, then 13; the pool as before after either.
#![tactic(auto)]

ghost use Rattle.std.specs.Prelude.{◌≡◌, ◌^◌, ◌≤◌, ◌<◌, length, replicate};
ghost use Rattle.query.specs.Settings.{limits_of};
ghost use Rattle.terms.specs.Chains.{Holds, Rooms};
ghost use Rattle.formula.specs.Card.{bindings};
ghost use Rattle.card_reader.specs.CardReading.{CardRead};

use query::Limits;

// why a card isn't read: 17; 13
#[derive(Clone, Copy, PartialEq, Eq, Debug)]
pub enum Unread {
    NoFormula,
    Full,
}

// The term of a text read into the pool; "in reading 17 comes before 13".
pub fn read_card(
    lim: Limits,
    table: &[u8],
    binds: &[u8; 64],
    text: &[u8],
    frames: &mut [u64],
    terms: &mut [u32],
    runs: &mut [u64],
) -> Result<usize, Unread>
    requires { (binds.now ≡ bindings table.now) × (length text.now ≤ length frames.old) × (length text.now < 2 ^ 48) × Holds terms.old runs.old × Rooms (limits_of lim) terms.old runs.old }
    ensures { CardRead (limits_of lim) table.now text.now terms.old runs.old terms.new runs.new result × (frames.new ≡ replicate (length frames.old) 0) }
{
    if !card_syntax::is_formula(table, binds, text, frames) {
        return Err(Unread::NoFormula);
    }
    let n = terms::count(terms);
    match card_terms::enter_terms(lim, table, binds, text, frames, terms, runs) {
        Some(a) => Ok(a),
        None => {
            term_undo::take_back(terms, runs, n);
            Err(Unread::Full)
        }
    }
}
