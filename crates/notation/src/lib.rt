// Reading a text: from its bytes to the table of its polynomial (document 01, 'The notation').
// The public call is `read_text`. `text_values` is for the crates above that work on a condition's values, once question 1 has been asked;
// the other functions are their own. The values come from the readers, 64 points to a word, and one transform takes them to the table.

#![tactic(auto)]

ghost use Rattle.std.specs.Prelude.{◌≡◌, [], ◌∷◌, ◌-◌, ◌^◌, ◌≤◌, length, MatchResult};
ghost use Rattle.tables.specs.Questions.{number};
ghost use Rattle.tables.specs.Inner.Passed.{NoneNo, IsFirstNo};
ghost use Rattle.tables.specs.Answered.{answered};
ghost use Rattle.grammar.specs.Text.{text_table};
ghost use Rattle.calls.specs.Questions.{has_text_length};
ghost use Rattle.calls.specs.Operations.{outcome};
ghost use Rattle.calls.specs.Text.{text_call};
ghost use Rattle.notation.specs.Inner.Work.{text_words, early_questions, symbol_questions, values_refusal};
ghost use Rattle.notation.specs.Inner.Passed.{PassedEarly};

use tables::{Letters, Question};

// Questions 5, 6 and 7, and the values of the text. Nothing is written before the answers.
fn symbol_values(letters: Letters, text: &[u8], words: &mut [u64]) -> Result<(), Question>
    requires { (length text.now ≤ 200) × (length words.old ≡ 2 ^ (letters.n - 6)) }
    ensures value { MatchResult result (λ _. NoneNo (symbol_questions letters.unknowns letters.givens text.now))
        (IsFirstNo (symbol_questions letters.unknowns letters.givens text.now)) }
    ensures words_after { MatchResult result (λ _. words.new ≡ text_words letters.unknowns letters.givens text.now)
        (λ _. words.new ≡ words.old) }
{
    let u = letters.unknowns;
    let g = letters.givens;
    let mut symbols = [0u8; 200];
    let count = parser::write_symbols(text, &mut symbols);
    tables::require(Question::Signs, parser::all_signs(&symbols[..count]))?;
    let declared = parser::all_declared(u as u8, g as u8, &symbols[..count]);
    tables::require(Question::Declared, declared)?;
    let whole = parser::read_values(&symbols[..count], u, words);
    tables::require(Question::Grammar, whole)?;
    Ok(())
}

// Question 3.
#[tactic(auto, unfolding(calls::specs::Questions::has_text_length))]
fn has_text_length(text: &[u8]) -> bool
    ensures { result ≡ has_text_length text.now }
{
    (1..=200).contains(&text.len())
}

// Questions 3, 5, 6 and 7, and the values of the text in `words`, as `words::take_values` makes them of its table.
pub fn text_values(letters: Letters, text: &[u8], words: &mut [u64]) -> Result<(), Question>
    requires { length words.old ≡ 2 ^ (letters.n - 6) }
    ensures value { MatchResult result (λ _. values_refusal letters.unknowns letters.givens text.now ≡ 0)
        (λ no. number no ≡ values_refusal letters.unknowns letters.givens text.now) }
    ensures words_after { MatchResult result (λ _. words.new ≡ text_words letters.unknowns letters.givens text.now)
        (λ _. words.new ≡ words.old) }
{
    tables::require(Question::TextLength, has_text_length(text))?;
    symbol_values(letters, text, words)
}

// Questions 5, 6 and 7, and the table of the text: its values, then back to coefficients.
fn read_table(
    letters: Letters,
    text: &[u8],
    words: &mut [u64],
    table: &mut [u8],
) -> Result<(), Question>
    requires { (length text.now ≤ 200) × (length words.old ≡ 2 ^ (letters.n - 6)) × (length table.old ≡ 2 ^ letters.n) }
    ensures value { MatchResult result (λ _. NoneNo (symbol_questions letters.unknowns letters.givens text.now))
        (IsFirstNo (symbol_questions letters.unknowns letters.givens text.now)) }
    ensures table_after { MatchResult result (λ _. table.new ≡ text_table letters.unknowns letters.givens text.now)
        (λ _. table.new ≡ table.old) }
{
    symbol_values(letters, text, words)?;
    words::put_table(letters.n, words, table);
    Ok(())
}

// Questions 1, 3 and 4, and the letters.
#[tactic(auto, unfolding(crate::specs::Inner::Work::early_questions, tables::specs::Questions::buffer_questions, tables::specs::Questions::room_questions, tables::specs::Questions::bit_questions, tables::specs::Questions::first_no))]
fn early_questions(u: usize, g: usize, text: &[u8], room: usize) -> Result<Letters, Question>
    ensures { MatchResult result (PassedEarly u g text.now room) (IsFirstNo (early_questions u g text.now room)) }
{
    let letters = Letters::new(u, g)?;
    tables::require(Question::TextLength, has_text_length(text))?;
    tables::require(Question::Room, tables::has_room(letters.table_len, room))?;
    Ok(letters)
}

// Reads a text over the declared letters into the front of `condition`. The scratch words live here.
pub fn read_text(u: usize, g: usize, text: &[u8], condition: &mut [u8]) -> Result<(), Question>
    ensures { answered (outcome result) (condition.new ∷ []) ≡ text_call u g text.now condition.old }
{
    let letters = early_questions(u, g, text, condition.len())?;
    let mut words = [0u64; 16];
    let k = words::word_count(letters.n);
    let room = letters.table_len;
    read_table(letters, text, &mut words[..k], &mut condition[..room])?;
    Ok(())
}
