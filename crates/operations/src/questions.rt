// The questions of the calls on tables, each asked by `?`: the first no is the error, and what a yes to each tells goes with the letters.
// The functions look alike, and stay: each has the list of its call, in the paper's order.

#![tactic(auto, unfolding(calls::specs::Questions::value_questions, calls::specs::Questions::pair_questions, calls::specs::Questions::substitute_questions, calls::specs::Questions::derivative_questions, calls::specs::Questions::mask_declared, tables::specs::Questions::buffer_questions, tables::specs::Questions::room_questions, tables::specs::Questions::bit_questions, tables::specs::Questions::first_no))]

ghost use Rattle.std.specs.Prelude.{◌≡◌, MatchResult};
ghost use Rattle.tables.specs.Questions.{in_range};
ghost use Rattle.calls.specs.Questions.{value_questions, pair_questions, substitute_questions, derivative_questions};
ghost use Rattle.tables.specs.Inner.Passed.{IsFirstNo};
ghost use Rattle.operations.specs.Inner.Passed.{PassedValue, PassedPair, PassedSubstitute, PassedDerivative};

use ring::{Choice, State};
use tables::{Letters, Question};

// Question 16, once question 1 is answered yes.
fn in_range(letters: Letters, state: State, choice: Choice) -> bool
    ensures { result ≡ in_range letters.unknowns letters.givens state choice }
{
    if tables::pow2(letters.givens) <= state.0 {
        return false;
    }
    choice.0 < tables::pow2(letters.unknowns)
}

// The questions of the value, and the letters.
pub fn of_value(
    u: usize,
    g: usize,
    t: &[u8],
    state: State,
    choice: Choice,
) -> Result<Letters, Question>
    ensures { MatchResult result (PassedValue u g t.now state choice) (IsFirstNo (value_questions u g t.now state choice)) }
{
    let letters = Letters::new(u, g)?;
    let k = letters.table_len;
    tables::require(Question::Room, tables::has_room(k, t.len()))?;
    tables::require(Question::Bits, tables::holds_bits(k, t))?;
    tables::require(Question::Range, in_range(letters, state, choice))?;
    Ok(letters)
}

// The questions of a call that joins two tables into a third, and the letters.
pub fn of_pair(u: usize, g: usize, a: &[u8], b: &[u8], room: usize) -> Result<Letters, Question>
    ensures { MatchResult result (PassedPair u g a.now b.now room) (IsFirstNo (pair_questions u g a.now b.now room)) }
{
    let letters = Letters::new(u, g)?;
    let k = letters.table_len;
    tables::require(Question::Room, tables::has_room(k, a.len()))?;
    tables::require(Question::Room, tables::has_room(k, b.len()))?;
    tables::require(Question::Room, tables::has_room(k, room))?;
    tables::require(Question::Bits, tables::holds_bits(k, a))?;
    tables::require(Question::Bits, tables::holds_bits(k, b))?;
    Ok(letters)
}

// The questions of a call that puts handed polynomials into a condition, and the letters.
pub fn of_substitute(
    u: usize,
    g: usize,
    condition: &[u8],
    handed: &[u8],
    room: usize,
) -> Result<Letters, Question>
    ensures { MatchResult result (PassedSubstitute u g condition.now handed.now room)
        (IsFirstNo (substitute_questions u g condition.now handed.now room)) }
{
    let letters = Letters::new(u, g)?;
    let k = letters.table_len;
    let all = letters.unknowns * k;
    tables::require(Question::Room, tables::has_room(k, condition.len()))?;
    tables::require(Question::Room, tables::has_room(all, handed.len()))?;
    tables::require(Question::Room, tables::has_room(k, room))?;
    tables::require(Question::Bits, tables::holds_bits(k, condition))?;
    tables::require(Question::Bits, tables::holds_bits(all, handed))?;
    Ok(letters)
}

// The questions of the derivative by the letters of the mask s, and the letters.
pub fn of_derivative(
    u: usize,
    g: usize,
    t: &[u8],
    s: usize,
    room: usize,
) -> Result<Letters, Question>
    ensures { MatchResult result (PassedDerivative u g t.now s room) (IsFirstNo (derivative_questions u g t.now s room)) }
{
    let letters = Letters::new(u, g)?;
    let k = letters.table_len;
    tables::require(Question::Room, tables::has_room(k, t.len()))?;
    tables::require(Question::Room, tables::has_room(k, room))?;
    tables::require(Question::Bits, tables::holds_bits(k, t))?;
    tables::require(Question::Mask, s < k)?;
    Ok(letters)
}
