// The questions that writing an entry puts first, each asked by `?`: the first no is the error, and what a yes to each tells goes with the
// letters.

#![tactic(auto, unfolding(crate::specs::Inner::Steps::condition_questions, tables::specs::Questions::buffer_questions, tables::specs::Questions::room_questions, tables::specs::Questions::bit_questions, tables::specs::Questions::first_no))]

ghost use Rattle.std.specs.Prelude.{◌≡◌, ◌+◌, ◌≤◌, MatchResult};
ghost use Rattle.tables.specs.Inner.Passed.{IsFirstNo};
ghost use Rattle.writer.specs.Inner.Steps.{condition_questions};
ghost use Rattle.writer.specs.Inner.Passed.{PassedCondition};

use solver::OrderedLetters;
use tables::{Letters, Question};

// Questions 1, 2, 17, 4 and 8, and the letters in their order.
pub fn of_condition(
    route: usize,
    u: usize,
    g: usize,
    order: [u8; 6],
    fact: &[u8],
    condition: &[u8],
) -> Result<OrderedLetters, Question>
    ensures { MatchResult result (PassedCondition route u g order fact.now condition.now)
        (IsFirstNo (condition_questions route u g order fact.now condition.now)) }
{
    let letters = Letters::new(u, g)?;
    tables::require(Question::Route, entry::route_fits(route))?;
    let ordered = OrderedLetters::new(letters, order)?;
    let k = ordered.letters.table_len;
    tables::require(Question::Room, tables::has_room(k, fact.len()))?;
    tables::require(Question::Room, tables::has_room(k, condition.len()))?;
    tables::require(Question::Bits, tables::holds_bits(k, fact))?;
    tables::require(Question::Bits, tables::holds_bits(k, condition))?;
    Ok(ordered)
}
