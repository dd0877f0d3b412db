// Reading an archive entry into tables. `read_entry` is the public call of the library.
// `fill_tables` is for the audit, too: what it requires, such callers meet.

#![tactic(auto)]

ghost use Rattle.std.specs.Prelude.{◌≡◌, true, [], ◌∷◌, ◌+◌, ◌*◌, ◌^◌, ◌≤◌, length, MatchResult};
ghost use Rattle.ring.specs.Table.{table, answer_table};
ghost use Rattle.tables.specs.Questions.{writes, buffer_questions};
ghost use Rattle.tables.specs.Answered.{answered};
ghost use Rattle.tables.specs.Inner.Passed.{IsFirstNo};
ghost use Rattle.entry.specs.Held.{records, condition_in, answers_in};
ghost use Rattle.records.specs.Inner.Filling.{put_monomial, filled, Fitting};
ghost use Rattle.calls.specs.Entries.{reading, read_call};
ghost use Rattle.reader.specs.Inner.Filling.{room_for, PassedRoom};

use calls::{Entry, Verdict};
use records::Kind;
use tables::{Letters, Question};

// The monomials of an accepted entry into cleared tables. Answers for which there is no room are left out.
fn fill(s: &[u8], letters: Letters, condition: &mut [u8], answers: &mut [u8])
    requires { Fitting letters.unknowns letters.givens (records s.now) × (length condition.old ≡ letters.table_len) }
    ensures condition_after { condition.new ≡ filled (put_monomial 1 (2 ^ (letters.unknowns + letters.givens))) (records s.now) condition.old }
    ensures answers_after { answers.new ≡ filled (put_monomial 2 (2 ^ (letters.unknowns + letters.givens))) (records s.now) answers.old }
{
    let mut at = 0;
    while let Some(kind) = records::kind_at(s, at) {
        match kind {
            Kind::Condition => at = records::put_row(s, at, Kind::Condition, letters, condition),
            Kind::Answer => at = records::put_row(s, at, Kind::Answer, letters, answers),
            Kind::End => return,
            Kind::Start | Kind::None | Kind::Order | Kind::Fact => at += kind.size(),
        }
    }
}

// The condition and the answers that an accepted entry holds. Where there is no room for answers, none are put.
pub fn fill_tables(s: &[u8], letters: Letters, condition: &mut [u8], answers: &mut [u8])
    requires { Fitting letters.unknowns letters.givens (records s.now) × (length condition.old ≡ letters.table_len) }
    ensures condition_after { condition.new ≡ table letters.n (condition_in (records s.now)) }
    ensures answers_after { length answers.old ≡ letters.unknowns * letters.table_len
        → answers.new ≡ answer_table letters.unknowns letters.n (answers_in (records s.now)) }
    ensures answers_len { length answers.new ≡ length answers.old }
{
    records::clear(condition);
    records::clear(answers);
    fill(s, letters, condition, answers);
}

// The bytes that the answers take: none where the entry says 'none'.
fn answer_room(verdict: Verdict, size: usize) -> usize
    ensures is { result ≡ room_for verdict size }
    ensures small { result ≤ size }
{
    match verdict {
        Verdict::Solved => size,
        Verdict::None(_) => 0,
    }
}

// Question 4, of buffers of so many bytes.
#[tactic(auto, unfolding(tables::specs::Questions::buffer_questions, tables::specs::Questions::room_questions, tables::specs::Questions::bit_questions, tables::specs::Questions::has_room, tables::specs::Questions::first_no))]
fn ask_room(
    k: usize,
    fact: usize,
    condition: usize,
    size: usize,
    answers: usize,
) -> Result<(), Question>
    ensures { MatchResult result (λ _. PassedRoom k fact condition size answers)
        (IsFirstNo (buffer_questions (writes k fact ∷ writes k condition ∷ writes size answers ∷ []))) }
{
    tables::require(Question::Room, tables::has_room(k, fact))?;
    tables::require(Question::Room, tables::has_room(k, condition))?;
    tables::require(Question::Room, tables::has_room(size, answers))
}

// Reads the entry that the bytes begin with: fills the order, the tables of the fact and of the condition and, if it is solved, the answer
// tables.
pub fn read_entry(
    bytes: &[u8],
    order: &mut [u8; 6],
    fact: &mut [u8],
    condition: &mut [u8],
    answers: &mut [u8],
) -> Result<Entry, Question>
    ensures { answered (reading result) (order.new ∷ fact.new ∷ condition.new ∷ answers.new ∷ [])
        ≡ read_call bytes.now order.old fact.old condition.old answers.old }
{
    let survey = records::survey_entry(bytes)?;
    let letters = survey.letters;
    let k = letters.table_len;
    let size = letters.unknowns * k;
    ask_room(k, fact.len(), condition.len(), size, answers.len())?;
    let room = answer_room(survey.entry.verdict, size);
    records::fill_fact(bytes, letters, &mut fact[..k]);
    fill_tables(bytes, letters, &mut condition[..k], &mut answers[..room]);
    let held = survey.order;
    *order = held;
    Ok(survey.entry)
}
