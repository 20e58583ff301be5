// The merge for other languages: calls that pass numbers and slices alone, and the lengths of the work buffers. Crate `tariff_c` gives each its C symbol.
#![tactic(auto)]

ghost use Rattle.std.specs.Prelude.{◌≡◌, length};
ghost use Rattle.spec.specs.declared.Caller.TheVariants.{Page, Desk};
ghost use Rattle.card_contract.specs.Calls as card;
ghost use Rattle.contract.specs.Merges.{fit_of};
ghost use Rattle.contract.specs.Answers.{Cleared};
ghost use Rattle.returned.specs.Cards.{card_lengths, ReturnsCard, ReturnsRead};
ghost use Rattle.returned.specs.Children.{ReturnsAdded};
ghost use Rattle.returned.specs.Narrows.{ReturnsNarrowed};
ghost use Rattle.returned.specs.Returns.{lengths, Returns};

use numbers::{long_size, size_u16};
use query::Query;
use returned::{AddedChild, CardLengths, Lengths, NarrowedList, Returned};
use spec::Caller;

pub fn tariff_lengths() -> Lengths
    ensures { result ≡ lengths }
{
    returned::buffer_lengths()
}

// The question, as one value.
fn asked(left: u16, right: u16, budget: u32, caller: Caller) -> Query
    ensures { result ≡ record { left = left; right = right; budget = budget; caller = caller } }
{
    Query {
        left,
        right,
        budget,
        caller,
    }
}

// The account desk's call: `merge_plain` of crate `au`, with 4,096 pairs.
pub fn tariff_merge(
    image: &[u8],
    left: u16,
    right: u16,
    budget: u32,
    graph: &mut [u16],
    pairs: &mut [u32],
    work: &mut [u64],
    flow: &mut [u64],
    terms: &mut [u32],
    runs: &mut [u64],
    out: &mut [u8],
) -> Returned
    ensures { let fit = fit_of 256 (length graph.old) (length pairs.old) (length work.old) (length flow.old) (length terms.old) (length runs.old) in Returns Desk image.now left right budget fit out.old out.new result × Cleared fit graph.old graph.new pairs.old pairs.new work.old work.new flow.old flow.new terms.old terms.new runs.old runs.new }
{
    let q = asked(left, right, budget, Caller::Desk);
    let a = au::merge_plain(image, q, graph, pairs, work, flow, terms, runs, out);
    returned::numbers_of(a)
}

// The quote page's call: the same with 256 pairs.
pub fn tariff_quote(
    image: &[u8],
    left: u16,
    right: u16,
    budget: u32,
    graph: &mut [u16],
    pairs: &mut [u32],
    work: &mut [u64],
    flow: &mut [u64],
    terms: &mut [u32],
    runs: &mut [u64],
    out: &mut [u8],
) -> Returned
    ensures { let fit = fit_of 256 (length graph.old) (length pairs.old) (length work.old) (length flow.old) (length terms.old) (length runs.old) in Returns Page image.now left right budget fit out.old out.new result × Cleared fit graph.old graph.new pairs.old pairs.new work.old work.new flow.old flow.new terms.old terms.new runs.old runs.new }
{
    let q = asked(left, right, budget, Caller::Page);
    let a = au::merge_plain(image, q, graph, pairs, work, flow, terms, runs, out);
    returned::numbers_of(a)
}

// A child in a list of so many terms: `add_child` of crate `child_list`.
pub fn tariff_add_child(list: &mut [u64], terms: usize, class: u16, count: u64) -> AddedChild
    ensures { ReturnsAdded terms class count list.old list.new result }
{
    let a = child_list::add_child(list, terms, long_size(size_u16(class)), count);
    returned::numbers_of_added(a, terms)
}

// Whether the counts of a list of so many terms fit 32 bits: `narrow` of crate `narrowing`.
pub fn tariff_narrow(list: &[u64], terms: usize) -> NarrowedList
    ensures { ReturnsNarrowed terms list.now result }
{
    let a = narrowing::narrow(list, terms);
    returned::numbers_of_narrowed(a)
}

pub fn tariff_card_lengths() -> CardLengths
    ensures { result ≡ card_lengths }
{
    returned::card_lengths()
}

// The card of a listing's lines: `card_of_lines` of crate `lines_to_card`.
pub fn tariff_card(
    table: &[u8],
    lines: &[u8],
    frames: &mut [u64],
    marks: &mut [u16],
    terms: &mut [u32],
    runs: &mut [u64],
    out: &mut [u8],
) -> Returned
    ensures { let fit = card.fits_lines frames.old marks.old terms.old runs.old in ReturnsCard table.now lines.now fit out.old out.new result × card.Cleared fit frames.old frames.new marks.old marks.new terms.old terms.new runs.old runs.new }
{
    let a = lines_to_card::card_of_lines(table, lines, frames, marks, terms, runs, out);
    returned::numbers_of_card(a)
}

// The lines of a card: `lines_of_card` of crate `card_to_lines`.
pub fn tariff_read_card(
    table: &[u8],
    text: &[u8],
    frames: &mut [u64],
    marks: &mut [u16],
    terms: &mut [u32],
    runs: &mut [u64],
    out: &mut [u8],
) -> Returned
    ensures { let fit = card.fits_text text.now frames.old marks.old terms.old runs.old in ReturnsRead table.now text.now fit out.old out.new result × card.Cleared fit frames.old frames.new marks.old marks.new terms.old terms.new runs.old runs.new }
{
    let a = card_to_lines::lines_of_card(table, text, frames, marks, terms, runs, out);
    returned::numbers_of_card(a)
}
