// Facts: questions 22 and 23 of the table g of a fact, the values of 1 + g, and those of a condition f*(1 + g).
// Nothing here is a public call of the library: `keep` and `take_where_zero` are for the crates above, which ask questions 1, 4 and 8 first
// and then lend slices of exactly the length that is needed.

#![tactic(auto)]

ghost use Rattle.std.specs.Prelude.{◌≡◌, true, ℕ, ◌-◌, ◌^◌, ◌≤◌, length, MatchResult, OnOk};
ghost use Rattle.ring.specs.Table.{AreBits, IsTable, present};
ghost use Rattle.tables.specs.Inner.Passed.{NoneNo, IsFirstNo};
ghost use Rattle.words.specs.Inner.Words.{words_of};
ghost use Rattle.solution.specs.Fact.{has_no_unknown};
ghost use Rattle.solution.specs.Elimination.{is_zero};
ghost use Rattle.calls.specs.Questions.{fact_questions};
ghost use Rattle.facts.specs.Inner.Kept.{kept_words, where_words};

use tables::{Letters, Question};

// Has g no monomial? No early way out, and as many turns as there are bytes, so that the loop is one of whole vectors.
fn is_zero(fact: &[u8]) -> bool
    requires { AreBits fact.now }
    ensures { (n : ℕ) → length fact.now ≡ 2 ^ n → result ≡ is_zero n (present fact.now) }
{
    let mut union = 0u8;
    for &byte in fact {
        union |= byte;
    }
    union == 0
}

// Question 22, in the same way.
fn has_no_unknown(u: usize, fact: &[u8]) -> bool
    requires { (u ≤ 6) × AreBits fact.now }
    ensures { (n : ℕ) → length fact.now ≡ 2 ^ n → result ≡ has_no_unknown u n (present fact.now) }
{
    let unknowns = tables::pow2(u) - 1;
    let mut union = 0u8;
    for (m, &byte) in fact.iter().enumerate() {
        if m & unknowns != 0 {
            union |= byte;
        }
    }
    union == 0
}

// Every point counts.
fn keep_all(kept: &mut [u64])
    ensures { kept.new ≡ words_of (length kept.old) (λ p. true) }
{
    kept.fill(0xffff_ffff_ffff_ffff);
}

// Questions 22 and 23, and the values of 1 + g, which are 1 at the points that count, in `kept`. The fact 0, which most routes have, takes
// one look at its bytes.
pub fn keep(letters: Letters, fact: &[u8], kept: &mut [u64]) -> Result<(), Question>
    requires { IsTable letters.n fact.now × (length kept.old ≡ 2 ^ (letters.n - 6)) }
    ensures value { MatchResult result (λ _. NoneNo (fact_questions letters.unknowns letters.givens fact.now))
        (IsFirstNo (fact_questions letters.unknowns letters.givens fact.now)) }
    ensures kept_after { OnOk result (kept.new ≡ kept_words letters.n fact.now) }
{
    if is_zero(fact) {
        keep_all(kept);
        return Ok(());
    }
    tables::require(Question::FactGivens, has_no_unknown(letters.unknowns, fact))?;
    words::take_values(letters.n, fact, kept);
    words::complement(kept);
    tables::require(
        Question::FactState,
        words::first_one(kept) < letters.table_len,
    )?;
    Ok(())
}

// Questions 22 and 23, and the values of f*(1 + g) in `values`. Uses up `kept`.
pub fn take_where_zero(
    letters: Letters,
    fact: &[u8],
    condition: &[u8],
    values: &mut [u64],
    kept: &mut [u64],
) -> Result<(), Question>
    requires { IsTable letters.n fact.now × IsTable letters.n condition.now
        × (length values.old ≡ 2 ^ (letters.n - 6)) × (length kept.old ≡ 2 ^ (letters.n - 6)) }
    ensures value { MatchResult result (λ _. NoneNo (fact_questions letters.unknowns letters.givens fact.now))
        (IsFirstNo (fact_questions letters.unknowns letters.givens fact.now)) }
    ensures values_after { OnOk result (values.new ≡ where_words letters.n condition.now fact.now) }
{
    keep(letters, fact, kept)?;
    words::take_values(letters.n, condition, values);
    words::multiply_into(values, kept);
    Ok(())
}
