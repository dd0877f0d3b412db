// The audit of an archive entry: it is read, its condition is solved afresh by its own order and under its own fact, and the two are
// compared, by values that stand 64 to a word. `audit` is the public call of the library; the other functions are its own, and what these require it meets.

#![tactic(auto)]

ghost use Rattle.std.specs.Prelude.{◌≡◌, [], ℕ, ◌-◌, ◌*◌, ◌^◌, ◌≤◌, length};
ghost use Rattle.ring.specs.Polynomial.{Polynomial, value};
ghost use Rattle.ring.specs.Table.{answer_table};
ghost use Rattle.tables.specs.Answered.{answered};
ghost use Rattle.words.specs.Inner.Words.{answer_words};
ghost use Rattle.entry.specs.Held.{records, held_condition};
ghost use Rattle.entry.specs.Record.{same_bytes};
ghost use Rattle.entry.specs.Questions.{answers_hold};
ghost use Rattle.calls.specs.Entries.{reading, audit_call};
ghost use Rattle.facts.specs.Inner.Kept.{where_words};
ghost use Rattle.records.specs.Inner.Gathering.{IsSurvey};
ghost use Rattle.audit.specs.Inner.Answers.{AreAnswers, Counted};

use calls::{Entry, Verdict};
use records::Survey;
use solver::OrderedLetters;
use tables::{Letters, Question};

// The answers held against those solved afresh, whose values stand in words: by values, an unknown at a time. Its number says where
// both its parts lie; by chunks of both the contract alone would know how many unknowns there are.
fn same_values(u: usize, n: usize, held: &[u8], fresh: &[u64], own: &mut [u64]) -> bool
    requires { (u ≤ 6) × (n ≤ 10) × AreAnswers u n held.now
        × (length fresh.now ≡ u * 2 ^ (n - 6)) × (length own.old ≡ 2 ^ (n - 6)) }
    ensures { (b : ℕ → Polynomial) → fresh.now ≡ answer_words u (2 ^ (n - 6)) (λ j. value n (b j))
        → result ≡ same_bytes held.now (answer_table u n b) }
{
    let k = tables::pow2(n);
    let w = words::word_count(n);
    for j in 0..u {
        let from = j * k;
        let start = j * w;
        words::take_values(n, &held[from..from + k], own);
        if own[..] != fresh[start..start + w] {
            return false;
        }
    }
    true
}

// The values of f*(1 + g) for the condition f and the fact g of an entry that passes the questions before 13: those of f, without the
// points that do not count. Uses up `kept`.
fn take_counted(
    bytes: &[u8],
    letters: Letters,
    condition: &[u8],
    values: &mut [u64],
    kept: &mut [u64],
)
    requires { Counted bytes.now letters condition.now values.old kept.old }
    ensures { values.new ≡ where_words letters.n condition.now (held_condition (records bytes.now)).fact }
{
    words::take_values(letters.n, condition, values);
    if records::has_fact(bytes) {
        if let Ok(()) = records::keep_fact(bytes, letters, kept) {
            words::multiply_into(values, kept);
        }
    }
}

// Question 13, in scratch tables and words of the lengths that are needed.
fn answers_hold(
    bytes: &[u8],
    survey: Survey,
    condition: &mut [u8],
    held: &mut [u8],
    values: &mut [u64],
    fresh: &mut [u64],
    own: &mut [u64],
) -> bool
    requires surveyed { IsSurvey (records bytes.now) survey }
    requires tables_len { (length condition.old ≡ survey.letters.table_len)
        × (length held.old ≡ survey.letters.unknowns * survey.letters.table_len) }
    requires words_len { (length values.old ≡ 2 ^ (survey.letters.n - 6))
        × (length fresh.old ≡ survey.letters.unknowns * 2 ^ (survey.letters.n - 6))
        × (length own.old ≡ 2 ^ (survey.letters.n - 6)) }
    ensures { result ≡ answers_hold (records bytes.now) }
{
    let letters = survey.letters;
    let order = survey.order;
    reader::fill_tables(bytes, letters, condition, held);
    take_counted(bytes, letters, condition, values, own);
    let afresh = solver::solve_values(OrderedLetters { letters, order }, values, fresh);
    match (survey.entry.verdict, afresh) {
        (Verdict::Solved, Verdict::Solved) => {
            same_values(letters.unknowns, letters.n, held, fresh, own)
        }
        (Verdict::None(told), Verdict::None(found)) => told == found,
        _ => false,
    }
}

// The scratch lives here: the tables of the entry, the condition's values, those of the answers solved afresh, and those of 1 + g and then
// of one answer held.
fn holds_afresh(bytes: &[u8], survey: Survey) -> bool
    requires { IsSurvey (records bytes.now) survey }
    ensures { result ≡ answers_hold (records bytes.now) }
{
    let letters = survey.letters;
    let k = letters.table_len;
    let w = solver::word_count(letters);
    let all = letters.unknowns * k;
    let every = letters.unknowns * w;
    let mut condition = [0u8; 1024];
    let mut held = [0u8; 6144];
    let mut values = [0u64; 16];
    let mut fresh = [0u64; 96];
    let mut own = [0u64; 16];
    answers_hold(
        bytes,
        survey,
        &mut condition[..k],
        &mut held[..all],
        &mut values[..w],
        &mut fresh[..every],
        &mut own[..w],
    )
}

// Audits the entry that the bytes begin with.
pub fn audit(bytes: &[u8]) -> Result<Entry, Question>
    ensures { answered (reading result) [] ≡ audit_call bytes.now }
{
    let survey = records::survey_entry(bytes)?;
    tables::require(Question::Afresh, holds_afresh(bytes, survey))?;
    Ok(survey.entry)
}
