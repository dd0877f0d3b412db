// What an entry has before its monomials.

#![tactic(auto)]

ghost use Rattle.std.specs.Prelude.{◌≡◌, ◌≤◌};
ghost use Rattle.ring.specs.Table.{IsTable};
ghost use Rattle.order.specs.Order.{order as written_order};

use solver::OrderedLetters;

// The route, the letters in their order, and the fact with the masks in the written order, in which its monomials are put.
#[derive(Clone, Copy)]
pub struct Heads<'a> {
    pub route: u8,
    pub ordered: OrderedLetters,
    pub fact: &'a [u8],
    pub masks: &'a [u16],
    pub ghost givens_fit: { ordered.letters.givens ≤ 8 },
    pub ghost of_fact: { IsTable ordered.letters.n fact.now },
    pub ghost written: { masks.now ≡ written_order ordered.letters.n },
}
