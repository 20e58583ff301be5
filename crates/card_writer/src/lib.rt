// A card: 18, then 14, then written.
#![tactic(auto)]

ghost use Rattle.std.specs.Prelude.{◌≡◌, ◌≤◌, ◌<◌, length};
ghost use Rattle.formula.specs.Card.{bindings};
ghost use Rattle.terms.specs.Buffers.{count_in};
ghost use Rattle.terms.specs.Chains.{Holds};
ghost use Rattle.card_writer.specs.Writes.{Writes};

// why a card isn't written: 18; 14
#[derive(Clone, Copy, PartialEq, Eq, Debug)]
pub enum Unwritten {
    Unsigned,
    Full,
}

// The card of term root: written, and its length, or refused with the output as it was; the marks of the pool's terms are cleared.
pub fn write_card(
    table: &[u8],
    binds: &[u8; 64],
    terms: &[u32],
    runs: &[u64],
    marks: &mut [u16],
    out: &mut [u8],
    root: usize,
) -> Result<usize, Unwritten>
    requires { Holds terms.now runs.now × (root < count_in terms.now) × (count_in terms.now ≤ length marks.old) × (binds.now ≡ bindings table.now) }
    ensures { Writes table.now terms.now runs.now root marks.old out.old marks.new out.new result }
{
    if !card_judge::all_signed(binds, terms, runs, marks, root) {
        return Err(Unwritten::Unsigned);
    }
    match card_widths::measure(table, terms, runs, root, 0, out.len()) {
        Some(_) => Ok(card_text::write_term(out, 0, table, terms, runs, root, 0)),
        None => Err(Unwritten::Full),
    }
}
