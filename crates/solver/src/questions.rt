// The questions of the solving calls, each asked by `?`: the first no is the error, and what a yes to each tells goes with the letters.
// The two look alike, and stay: each has the list of its calls, in the paper's order.

#![tactic(auto, unfolding(crate::specs::Inner::Methods::table_questions, crate::specs::Inner::Handed::handed_table_questions, tables::specs::Questions::buffer_questions, tables::specs::Questions::room_questions, tables::specs::Questions::bit_questions, tables::specs::Questions::first_no))]

ghost use Rattle.std.specs.Prelude.{◌≡◌, ◌+◌, ◌*◌, ◌≤◌, MatchResult};
ghost use Rattle.tables.specs.Inner.Passed.{IsFirstNo};
ghost use Rattle.solver.specs.Inner.Methods.{table_questions};
ghost use Rattle.solver.specs.Inner.Handed.{handed_table_questions};
ghost use Rattle.solver.specs.Inner.Passed.{PassedSolving, PassedHanded};

use crate::OrderedLetters;
use tables::{Letters, Question};

// Questions 1, 17, 4 and 8 of a call that solves, and the letters in their order.
pub fn of_solving(
    u: usize,
    g: usize,
    order: [u8; 6],
    fact: &[u8],
    condition: &[u8],
    room: usize,
) -> Result<OrderedLetters, Question>
    ensures { MatchResult result (PassedSolving u g order fact.now condition.now room)
        (IsFirstNo (table_questions u g order fact.now condition.now room)) }
{
    let ordered = OrderedLetters::new(Letters::new(u, g)?, order)?;
    let k = ordered.letters.table_len;
    let all = ordered.letters.unknowns * k;
    tables::require(Question::Room, tables::has_room(k, fact.len()))?;
    tables::require(Question::Room, tables::has_room(k, condition.len()))?;
    tables::require(Question::Room, tables::has_room(all, room))?;
    tables::require(Question::Bits, tables::holds_bits(k, fact))?;
    tables::require(Question::Bits, tables::holds_bits(k, condition))?;
    Ok(ordered)
}

// Questions 1, 4 and 8 of handed polynomials, and the letters.
pub fn of_handed(
    u: usize,
    g: usize,
    fact: &[u8],
    condition: &[u8],
    handed: &[u8],
    room: usize,
) -> Result<Letters, Question>
    ensures { MatchResult result (PassedHanded u g fact.now condition.now handed.now room)
        (IsFirstNo (handed_table_questions u g fact.now condition.now handed.now room)) }
{
    let letters = Letters::new(u, g)?;
    let k = letters.table_len;
    let all = letters.unknowns * k;
    tables::require(Question::Room, tables::has_room(k, fact.len()))?;
    tables::require(Question::Room, tables::has_room(k, condition.len()))?;
    tables::require(Question::Room, tables::has_room(all, handed.len()))?;
    tables::require(Question::Room, tables::has_room(all, room))?;
    tables::require(Question::Bits, tables::holds_bits(k, fact))?;
    tables::require(Question::Bits, tables::holds_bits(k, condition))?;
    tables::require(Question::Bits, tables::holds_bits(all, handed))?;
    Ok(letters)
}
