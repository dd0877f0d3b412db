// The archive entry: its records, and the laws of writing and reading one. `specs/` follows documents 01 and 02: the records and their
// bytes, the entry of a condition, what some bytes hold, and the questions that are put to them; `proofs/Theorems.antt` has the
// headlines. The code stands in `records`, `reader` and `writer`; here is what reading and writing both ask: question 2, and whether an
// order is 0, 1, 2, .., which has no record.

#![tactic(auto)]

ghost use Rattle.std.specs.Prelude.{◌≡◌};
ghost use Rattle.entry.specs.Record.{is_default};
ghost use Rattle.entry.specs.Questions.{route_fits};

// Question 2. A route comes as any number, so that none is cut to a byte unasked.
#[tactic(auto, unfolding(crate::specs::Questions::route_fits))]
pub fn route_fits(route: usize) -> bool
    ensures { result ≡ route_fits route }
{
    (1..=250).contains(&route)
}

// Is the order 0, 1, 2, ..?
#[tactic(auto, using(crate::proofs::SameBytes::same_pointwise), unfolding(crate::specs::Record::is_default))]
pub fn is_default(u: usize, order: [u8; 6]) -> bool
    ensures { result ≡ is_default u order }
{
    order == solution::default_order(u)
}
