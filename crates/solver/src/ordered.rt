// Letters with an order of their unknowns, as every function takes them that solves.

#![tactic(auto)]

ghost use Rattle.std.specs.Prelude.{◌≡◌, true, false, MatchResult};
ghost use Rattle.solution.specs.Order.{order_fits};

use tables::{Letters, Question};

// Letters, and an order of their unknowns that has passed question 17.
#[derive(Clone, Copy)]
pub struct OrderedLetters {
    pub letters: Letters,
    pub order: [u8; 6],
    pub ghost in_order: { order_fits letters.unknowns order ≡ true },
}

impl OrderedLetters {
    // Question 17.
    pub fn new(letters: Letters, order: [u8; 6]) -> Result<Self, Question>
        ensures { MatchResult result (λ o. (o.letters ≡ letters) × (o.order ≡ order))
            (λ q. (q ≡ Question.Order) × (order_fits letters.unknowns order ≡ false)) }
    {
        tables::require(
            Question::Order,
            solution::order_fits(letters.unknowns, order),
        )?;
        Ok(OrderedLetters { letters, order })
    }
}
