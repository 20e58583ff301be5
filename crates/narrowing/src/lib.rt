// Narrowing a monomial to counts of 32 bits (02, Paper 7): it says at which entry it fails first.
#![tactic(auto)]

ghost use Rattle.std.specs.Prelude.{◌≡◌};
ghost use Rattle.spec.specs.Monomial.{fails_at};
ghost use Rattle.monomial_terms.specs.Terms.{held};
ghost use Rattle.narrowing.specs.Narrowing.{narrowed_of};

use monomial_terms::count_at;

// The first entry, from 0, whose count is above 4,294,967,295, of the n terms, or of as many as the buffer has. None: every count fits.
pub fn narrow(mono: &[u64], n: usize) -> Option<usize>
    ensures { result ≡ narrowed_of (fails_at (held n mono.now)) }
{
    for i in 0..n.min(mono.len() / 2) {
        if count_at(mono, i) > id::multiplicity::MAX {
            return Some(i);
        }
    }
    None
}
