// Solving a condition: Boole's answers, the particular solution, Löwenheim's formula on that solution or on handed polynomials that solve it.
// Public calls, none with a `requires`: `boole`, `particular`, `lowenheim`, `lowenheim_handed`. `OrderedLetters`, `word_count` and `solve_values`,
// Boole's method, are for the crates above, which ask the questions first; the other functions are theirs alone.
// An order comes as six bytes, first eliminated first, with 255 behind its unknowns; the handed form needs none. A fact comes as a table
// g: what is solved is f*(1 + g).
// The work is done on truth values, 64 points to a word (`elimination`). It comes back to polynomials, and the contracts cite the
// polynomials' own definitions.

#![tactic(auto)]

ghost use Rattle.std.specs.Prelude.{◌≡◌, Bool, List, [], ◌∷◌, ℕ, ◌-◌, ◌*◌, ◌^◌, ◌≤◌, length};
ghost use Rattle.ring.specs.Polynomial.{value};
ghost use Rattle.ring.specs.Table.{IsTable, AreBits, held, answer_table};
ghost use Rattle.ring.specs.Length.{total_count};
ghost use Rattle.tables.specs.Answered.{answered};
ghost use Rattle.words.specs.Inner.Words.{words_of, bit_at};
ghost use Rattle.solution.specs.Condition.{under_fact};
ghost use Rattle.solution.specs.Inner.ByPoints.{zero_choice};
ghost use Rattle.calls.specs.Counted.{value_said};
ghost use Rattle.calls.specs.Solving.{solving, solving_call, boole_call, particular_call, lowenheim_call, handed_call};
ghost use Rattle.solver.specs.Inner.Methods.{posed, table_by, solve_by, value_words, boole_words, solve_words, verdict};
ghost use Rattle.solver.specs.Inner.Handed.{handed_by};
ghost use Rattle.solver.specs.Inner.Words.{part_value, mixed_value, TakesParts, MakesValues, made_by};

mod ordered;
mod questions;

use calls::{Unsolved, Verdict};
pub use ordered::OrderedLetters;
use ring::State;
use tables::{Letters, Question};

// Which answers are asked for. An enum and no closure, since the contracts say what each makes (`table_by`).
#[derive(Clone, Copy, Debug, PartialEq, Eq)]
pub enum Method {
    Boole,
    Particular,
    Lowenheim,
}

// Boole's answers.
pub fn boole(
    u: usize,
    g: usize,
    order: [u8; 6],
    fact: &[u8],
    condition: &[u8],
    answers: &mut [u8],
) -> Result<usize, Unsolved>
    ensures { answered (solving result) (answers.new ∷ [])
        ≡ boole_call u g order fact.now condition.now answers.old }
{
    ask_and_solve(Method::Boole, u, g, order, fact, condition, answers)
}

// The particular solution.
pub fn particular(
    u: usize,
    g: usize,
    order: [u8; 6],
    fact: &[u8],
    condition: &[u8],
    answers: &mut [u8],
) -> Result<usize, Unsolved>
    ensures { answered (solving result) (answers.new ∷ [])
        ≡ particular_call u g order fact.now condition.now answers.old }
{
    ask_and_solve(Method::Particular, u, g, order, fact, condition, answers)
}

// Löwenheim's answers from the particular solution.
pub fn lowenheim(
    u: usize,
    g: usize,
    order: [u8; 6],
    fact: &[u8],
    condition: &[u8],
    answers: &mut [u8],
) -> Result<usize, Unsolved>
    ensures { answered (solving result) (answers.new ∷ [])
        ≡ lowenheim_call u g order fact.now condition.now answers.old }
{
    ask_and_solve(Method::Lowenheim, u, g, order, fact, condition, answers)
}

fn widened(order: [u8; 6]) -> [usize; 6]
    ensures { result ≡ order }
{
    order.map(usize::from)
}

// The verdict by the values of f*(1 + g), of a condition f and a fact g that have passed the questions: if there is a solution, the values
// of Boole's answer for unknown j are in the words j * k to (j + 1) * k of `answers`, k words holding the values of one polynomial. Uses
// up the values of f*(1 + g).
pub fn solve_values(ordered: OrderedLetters, values: &mut [u64], answers: &mut [u64]) -> Verdict
    requires { (length values.old ≡ 2 ^ (ordered.letters.n - 6))
        × (length answers.old ≡ ordered.letters.unknowns * 2 ^ (ordered.letters.n - 6)) }
    ensures { (fact t : List ℕ) → values.old ≡ value_words (posed ordered fact t)
        → verdict result answers.new ≡ solve_words (posed ordered fact t) }
{
    let letters = ordered.letters;
    let order = widened(ordered.order);
    let state = elimination::solve_words(letters, &order[..letters.unknowns], values, answers);
    if state < tables::pow2(letters.givens) {
        return Verdict::None(State(state));
    }
    Verdict::Solved
}

// Questions 1, 17, 4 and 8, then 22, 23 and 9.
fn ask_and_solve(
    method: Method,
    u: usize,
    g: usize,
    order: [u8; 6],
    fact: &[u8],
    condition: &[u8],
    answers: &mut [u8],
) -> Result<usize, Unsolved>
    ensures { answered (solving result) (answers.new ∷ [])
        ≡ solving_call (table_by method) u g order fact.now condition.now answers.old }
{
    let ordered = questions::of_solving(u, g, order, fact, condition, answers.len())?;
    let k = ordered.letters.table_len;
    let all = ordered.letters.unknowns * k;
    solve_by(
        method,
        ordered,
        &fact[..k],
        &condition[..k],
        &mut answers[..all],
    )
}

// How many words hold the values of one polynomial.
pub fn word_count(letters: Letters) -> usize
    ensures { (result ≡ 2 ^ (letters.n - 6)) × (result ≤ 16) × (letters.unknowns * result ≤ 96) }
{
    words::word_count(letters.n)
}

// Questions 22, 23 and 9, and the answers of a method if all are answered yes. The scratch words live here.
fn solve_by(
    method: Method,
    ordered: OrderedLetters,
    fact: &[u8],
    condition: &[u8],
    answers: &mut [u8],
) -> Result<usize, Unsolved>
    requires { IsTable ordered.letters.n fact.now × IsTable ordered.letters.n condition.now
        × (length answers.old ≡ ordered.letters.unknowns * 2 ^ ordered.letters.n) }
    ensures { answered (solving result) (answers.new ∷ [])
        ≡ solve_by method (posed ordered fact.now condition.now) answers.old }
{
    let k = word_count(ordered.letters);
    let all = ordered.letters.unknowns * k;
    let mut values_room = [0u64; 16];
    let values = &mut values_room[..k];
    let mut used_room = [0u64; 16];
    let used = &mut used_room[..k];
    let mut found_room = [0u64; 96];
    let found = &mut found_room[..all];
    facts::take_where_zero(ordered.letters, fact, condition, values, used)?;
    words::copy(used, values);
    match solve_values(ordered, used, found) {
        Verdict::Solved => Ok(write_by(method, ordered.letters, values, found, used, answers)),
        Verdict::None(state) => Err(Unsolved::None(state)),
    }
}

// The tables of a method's answers, from the values of Boole's, and the total of their monomials. `own` is room for the values of one.
fn write_by(
    method: Method,
    letters: Letters,
    values: &[u64],
    found: &mut [u64],
    own: &mut [u64],
    answers: &mut [u8],
) -> usize
    requires { (length values.now ≡ 2 ^ (letters.n - 6)) × (length found.old ≡ letters.unknowns * 2 ^ (letters.n - 6))
        × (length own.old ≡ 2 ^ (letters.n - 6)) × (length answers.old ≡ letters.unknowns * 2 ^ letters.n) }
    ensures { ((order fact t : List ℕ) → values.now ≡ value_words (under_fact letters.unknowns letters.givens order fact t)
        → found.old ≡ boole_words (under_fact letters.unknowns letters.givens order fact t)
        → answers.new ≡ table_by method (under_fact letters.unknowns letters.givens order fact t))
        × (result ≡ total_count letters.unknowns letters.n (held letters.n answers.new)) }
{
    match method {
        Method::Boole => write_tables(letters, found, own, answers),
        Method::Particular => {
            put_zeros(letters.unknowns, found);
            write_tables(letters, found, own, answers)
        }
        Method::Lowenheim => {
            put_zeros(letters.unknowns, found);
            write_mixed(letters, values, found, own, answers)
        }
    }
}

// For each unknown a table, and the total of their monomials: `take` makes its values in `own`, of the values in its part of `parts`. By the
// number of the unknown, since after `chunks_exact_mut` a proof knows nothing of the tables.
fn write_each<F: Fn(usize, &[u64], &mut [u64])>(
    letters: Letters,
    parts: &[u64],
    own: &mut [u64],
    answers: &mut [u8],
    take: F,
) -> usize
    requires lengths { (length parts.now ≡ letters.unknowns * 2 ^ (letters.n - 6)) × (length own.old ≡ 2 ^ (letters.n - 6))
        × (length answers.old ≡ letters.unknowns * 2 ^ letters.n) }
    requires callable { TakesParts letters (F.pre take) }
    ensures { (h : ℕ → Bool → ℕ → Bool) → MakesValues letters (F.post take) h
        → (answers.new ≡ answer_table letters.unknowns letters.n (made_by letters h parts.now))
        × (result ≡ total_count letters.unknowns letters.n (held letters.n answers.new)) }
{
    let k = word_count(letters);
    let size = letters.table_len;
    let mut total = 0;
    for x in 0..letters.unknowns {
        let start = x * k;
        let end = start + k;
        let from = x * size;
        let to = from + size;
        take(x, &parts[start..end], own);
        total += words::put_counted(letters.n, own, &mut answers[from..to]);
    }
    total
}

// The tables of the polynomials whose values stand in `found`, and the total of their monomials.
fn write_tables(letters: Letters, found: &[u64], own: &mut [u64], answers: &mut [u8]) -> usize
    requires { (length found.now ≡ letters.unknowns * 2 ^ (letters.n - 6)) × (length own.old ≡ 2 ^ (letters.n - 6))
        × (length answers.old ≡ letters.unknowns * 2 ^ letters.n) }
    ensures { (answers.new
        ≡ answer_table letters.unknowns letters.n (λ j. value letters.n (part_value (2 ^ (letters.n - 6)) found.now j)))
        × (result ≡ total_count letters.unknowns letters.n (held letters.n answers.new)) }
{
    write_each(
        letters,
        found,
        own,
        answers,
        |_, part, own| words::copy(own, part),
    )
}

// Löwenheim's answers from the values of the condition and of the polynomials b, and the total of their monomials.
fn write_mixed(
    letters: Letters,
    values: &[u64],
    b: &[u64],
    own: &mut [u64],
    answers: &mut [u8],
) -> usize
    requires { (length values.now ≡ 2 ^ (letters.n - 6)) × (length b.now ≡ letters.unknowns * 2 ^ (letters.n - 6))
        × (length own.old ≡ 2 ^ (letters.n - 6)) × (length answers.old ≡ letters.unknowns * 2 ^ letters.n) }
    ensures { (answers.new
        ≡ answer_table letters.unknowns letters.n
        (λ j. value letters.n (mixed_value (bit_at values.now) (part_value (2 ^ (letters.n - 6)) b.now j) j)))
        × (result ≡ total_count letters.unknowns letters.n (held letters.n answers.new)) }
{
    write_each(
        letters,
        b,
        own,
        answers,
        |x, part, own| words::mix(values, x, part, own),
    )
}

// Every unknown at 0. The numbers gone through are letters; none is an index.
fn put_zeros(u: usize, words: &mut [u64])
    requires { u ≤ 6 }
    ensures { words.new ≡ words_of (length words.old) (λ p. bit_at words.old (zero_choice u p)) }
{
    for x in 0..u {
        words::put_zero(words, x);
    }
}

// Löwenheim's answers from handed polynomials that solve the condition; others are refused.
pub fn lowenheim_handed(
    u: usize,
    g: usize,
    fact: &[u8],
    condition: &[u8],
    handed: &[u8],
    answers: &mut [u8],
) -> Result<usize, Question>
    ensures { answered (value_said result) (answers.new ∷ [])
        ≡ handed_call u g fact.now condition.now handed.now answers.old }
{
    let letters = questions::of_handed(u, g, fact, condition, handed, answers.len())?;
    let k = letters.table_len;
    let all = letters.unknowns * k;
    test_and_mix(
        letters,
        &fact[..k],
        &condition[..k],
        &handed[..all],
        &mut answers[..all],
    )
}

// Questions 22, 23 and 21, and the answers if all are answered yes. The handed polynomials' values serve the test and then the formula. The
// scratch words live here.
fn test_and_mix(
    letters: Letters,
    fact: &[u8],
    condition: &[u8],
    handed: &[u8],
    answers: &mut [u8],
) -> Result<usize, Question>
    requires { IsTable letters.n fact.now × IsTable letters.n condition.now
        × (length handed.now ≡ letters.unknowns * 2 ^ letters.n) × AreBits handed.now
        × (length answers.old ≡ letters.unknowns * 2 ^ letters.n) }
    ensures { answered (value_said result) (answers.new ∷ [])
        ≡ handed_by letters.unknowns letters.givens fact.now condition.now handed.now answers.old }
{
    let k = word_count(letters);
    let mut values_room = [0u64; 16];
    let values = &mut values_room[..k];
    let mut own_room = [0u64; 16];
    let own = &mut own_room[..k];
    let mut parts_room = [0u64; 96];
    let parts = &mut parts_room[..6 * k];
    facts::take_where_zero(letters, fact, condition, values, own)?;
    words::copy(own, values);
    polynomials::put_handed(letters.unknowns, letters.n, handed, own, parts);
    tables::require(Question::Handed, letters.table_len <= words::first_one(own))?;
    Ok(write_mixed(
        letters,
        values,
        &parts[..letters.unknowns * k],
        own,
        answers,
    ))
}
