// Writing an archive entry: the condition is solved here, so that the answers are Boole's. `write_entry` is the public call of the library.
// `list_entry` is for the program that prints entries too: all monomials of a condition and its answers, as numbers, from the condition's
// coefficients and the values of what is solved, in words. The other functions are inner work. An order comes as six bytes, first
// eliminated first, 255 behind its unknowns; a fact as a table.

#![tactic(auto)]

ghost use Rattle.std.specs.Prelude.{◌≡◌, Option, List, [], ◌∷◌, ◌++◌, map, ℕ, ◌+◌, ◌-◌, ◌*◌, ◌^◌, ◌≤◌, ◌<◌, length, take};
ghost use Rattle.ring.specs.Polynomial.{value};
ghost use Rattle.ring.specs.Table.{IsTable, AreBits};
ghost use Rattle.tables.specs.Answered.{answered};
ghost use Rattle.tables.specs.Inner.Put.{Put};
ghost use Rattle.words.specs.Inner.Words.{words_of, bit_at};
ghost use Rattle.order.specs.Order.{order as written_order, monomials};
ghost use Rattle.order.specs.Inner.Listing.{tagged, Listed};
ghost use Rattle.entry.specs.Record.{end_record, bytes};
ghost use Rattle.entry.specs.Inner.Codes.{listed_record};
ghost use Rattle.entry.specs.Entry.{entry};
ghost use Rattle.calls.specs.Counted.{value_said};
ghost use Rattle.calls.specs.Entries.{write_call};
ghost use Rattle.solver.specs.Inner.Methods.{posed, value_words};
ghost use Rattle.facts.specs.Inner.Kept.{kept_words};
ghost use Rattle.writer.specs.Inner.Steps.{answer_codes, count_of, size_of, none_records, archived_order, archived_fact, fact_part};
ghost use Rattle.writer.specs.Inner.Steps.{Lists, Listable, packed, AreKept, Ready, Sized, hand_out, hand_out_under};
ghost use Rattle.writer.specs.Inner.Headed.{heads_of, entry_of};

mod heads;
mod questions;

use calls::Verdict;
use heads::Heads;
use solver::OrderedLetters;
use tables::{Letters, Question};

// What listing an entry finds: how many monomials the condition has, how many it has with its answers, and, where there is no solution, the
// state.
#[derive(Clone, Copy, Debug, PartialEq, Eq)]
pub struct Listing {
    pub of_condition: usize,
    pub all: usize,
    pub none: Option<u8>,
}

// Bytes in their place, and the place behind them. A kind that is written is its byte, as the layout of the records has it; `records::Kind` is
// for bytes that are read.
fn put<const N: usize>(out: &mut [u8], at: usize, bytes: [u8; N]) -> usize
    requires { at + length bytes ≤ length out.old }
    ensures { Put out.old at bytes.entry result out.new }
{
    let end = at + N;
    out[at..end].copy_from_slice(&bytes);
    end
}

// From coefficients to values, or back, into other words.
pub fn transform(n: usize, words: &[u64], out: &mut [u64])
    requires { (n ≤ 10) × (length words.now ≡ 2 ^ (n - 6)) × (length out.old ≡ 2 ^ (n - 6)) }
    ensures { out.new ≡ words_of (2 ^ (n - 6)) (value (6 + (n - 6)) (bit_at words.now)) }
{
    words::copy(out, words);
    words::to_values(out, words::further(n));
}

// The monomials of the polynomial whose values stand in `values`; `own` is room for its coefficients.
fn list_values(
    n: usize,
    tag: usize,
    values: &[u64],
    masks: &[u16],
    codes: &mut [u16],
    from: usize,
    own: &mut [u64],
) -> usize
    requires { (n ≤ 10) × (tag + 1024 ≤ 65536) × (length values.now ≡ 2 ^ (n - 6)) × (masks.now ≡ written_order n)
        × (from + 2 ^ n ≤ length codes.old) × (length own.old ≡ 2 ^ (n - 6)) }
    ensures { Listed codes.old from (tagged tag (monomials n (value n (bit_at values.now)))) result
        codes.new }
{
    transform(n, values, own);
    order::list_monomials(n, tag, own, masks, codes, from)
}

// The monomials of the answers, unknown 0 first; `own` is room for the coefficients of one. By the number of the unknown, of which each
// monomial's tag is made.
fn list_answers(
    letters: Letters,
    answers: &[u64],
    masks: &[u16],
    codes: &mut [u16],
    from: usize,
    own: &mut [u64],
) -> usize
    requires { (length answers.now ≡ letters.unknowns * 2 ^ (letters.n - 6)) × (masks.now ≡ written_order letters.n)
        × (from + letters.unknowns * 2 ^ letters.n ≤ length codes.old) × (length own.old ≡ 2 ^ (letters.n - 6)) }
    ensures { Listed codes.old from (answer_codes letters.unknowns letters.n answers.now) result codes.new }
{
    let k = words::word_count(letters.n);
    let mut at = from;
    for j in 0..letters.unknowns {
        let start = j * k;
        let end = start + k;
        at = list_values(
            letters.n,
            1024 * (j + 1),
            &answers[start..end],
            masks,
            codes,
            at,
            own,
        );
    }
    at
}

// Uses up the values; `answers` is room for those of the answers, `own` for the coefficients of one.
fn list_with(
    ordered: OrderedLetters,
    coefficients: &[u64],
    values: &mut [u64],
    masks: &[u16],
    codes: &mut [u16],
    answers: &mut [u64],
    own: &mut [u64],
) -> Listing
    requires { Listable ordered coefficients.now values.old masks.now
        × ((ordered.letters.unknowns + 1) * 2 ^ ordered.letters.n ≤ length codes.old)
        × (length answers.old ≡ ordered.letters.unknowns * 2 ^ (ordered.letters.n - 6)) × (length own.old ≡ 2 ^ (ordered.letters.n - 6)) }
    ensures { (fact : List ℕ) → values.old ≡ value_words (packed ordered fact coefficients.now)
        → Lists (packed ordered fact coefficients.now) result codes.new }
{
    let letters = ordered.letters;
    let told = order::list_monomials(letters.n, 0, coefficients, masks, codes, 0);
    match solver::solve_values(ordered, values, answers) {
        Verdict::Solved => Listing {
            of_condition: told,
            all: list_answers(letters, answers, masks, codes, told, own),
            none: None,
        },
        Verdict::None(state) => Listing {
            of_condition: told,
            all: told,
            none: Some(state.0 as u8),
        },
    }
}

// The same; room for `A` words of answers and for `W` of coefficients lives here.
fn list_in<const A: usize, const W: usize>(
    ordered: OrderedLetters,
    coefficients: &[u64],
    values: &mut [u64],
    masks: &[u16],
    codes: &mut [u16],
) -> Listing
    requires { Listable ordered coefficients.now values.old masks.now
        × ((ordered.letters.unknowns + 1) * 2 ^ ordered.letters.n ≤ length codes.old)
        × (ordered.letters.unknowns * 2 ^ (ordered.letters.n - 6) ≤ A) × (2 ^ (ordered.letters.n - 6) ≤ W) × (A ≤ 96) × (W ≤ 16) }
    ensures { (fact : List ℕ) → values.old ≡ value_words (packed ordered fact coefficients.now)
        → Lists (packed ordered fact coefficients.now) result codes.new }
{
    let k = solver::word_count(ordered.letters);
    let size = ordered.letters.unknowns * k;
    let mut answers = [0u64; A];
    let mut own = [0u64; W];
    list_with(
        ordered,
        coefficients,
        values,
        masks,
        codes,
        &mut answers[..size],
        &mut own[..k],
    )
}

// All monomials of a condition that has passed the questions and of its answers, in the entry's order, at the front of `codes`. The
// condition is lent as its coefficients and the values of f*(1 + g), which are used up; `masks` has the written order.
pub fn list_entry(
    ordered: OrderedLetters,
    coefficients: &[u64],
    values: &mut [u64],
    masks: &[u16],
    codes: &mut [u16],
) -> Listing
    requires { Listable ordered coefficients.now values.old masks.now
        × ((ordered.letters.unknowns + 1) * 2 ^ ordered.letters.n ≤ length codes.old) }
    ensures { (fact : List ℕ) → values.old ≡ value_words (packed ordered fact coefficients.now)
        → Lists (packed ordered fact coefficients.now) result codes.new }
{
    // Up to six letters have one word to a polynomial: clearing room for sixteen would take as long as to solve.
    if ordered.letters.n <= 6 {
        return list_in::<6, 1>(ordered, coefficients, values, masks, codes);
    }
    list_in::<96, 16>(ordered, coefficients, values, masks, codes)
}

// The record of a monomial.
fn put_monomial(code: u16, out: &mut [u8], at: usize) -> usize
    requires { at + length (listed_record code) ≤ length out.old }
    ensures { Put out.old at (listed_record code) result out.new }
{
    let i = code / 1024;
    let m = code % 1024;
    if i == 0 {
        let [low, high] = m.to_le_bytes();
        return put(out, at, [2, low, high]);
    }
    // One number, so that the four bytes are one store.
    put(
        out,
        at,
        (3 + 256 * u32::from(i - 1) + 65536 * u32::from(m)).to_le_bytes(),
    )
}

fn put_monomials(codes: &[u16], out: &mut [u8], from: usize) -> usize
    requires { from + length (bytes (map listed_record codes.now)) ≤ length out.old }
    ensures { Put out.old from (bytes (map listed_record codes.now)) result out.new }
{
    let mut at = from;
    for &code in codes {
        at = put_monomial(code, out, at);
    }
    at
}

// The record of an order.
fn put_order(order: [u8; 6], out: &mut [u8], at: usize) -> usize
    requires { at + 7 ≤ length out.old }
    ensures { Put out.old at (6 ∷ order) result out.new }
{
    let kind = put(out, at, [6]);
    put(out, kind, order)
}

// The entry's start, and its order unless that is 0, 1, 2, ..
fn put_start(heads: &Heads, out: &mut [u8]) -> usize
    requires { 4 + length (bytes (archived_order heads.now.ordered.letters.unknowns heads.now.ordered.order)) ≤ length out.old }
    ensures { Put out.old 0
        (1 ∷ heads.now.route ∷ heads.now.ordered.letters.unknowns ∷ heads.now.ordered.letters.givens
        ∷ bytes (archived_order heads.now.ordered.letters.unknowns heads.now.ordered.order)) result out.new }
{
    let letters = heads.ordered.letters;
    let started = put(
        out,
        0,
        [1, heads.route, letters.unknowns as u8, letters.givens as u8],
    );
    if entry::is_default(letters.unknowns, heads.ordered.order) {
        return started;
    }
    put_order(heads.ordered.order, out, started)
}

// The record of a monomial, if the fact has it.
fn put_if_present(fact: &[u8], m: u16, out: &mut [u8], at: usize) -> usize
    requires { (m < length fact.now) × (at + length (fact_part fact.now m) ≤ length out.old) }
    ensures { Put out.old at (fact_part fact.now m) result out.new }
{
    if fact[usize::from(m)] == 1 {
        let [low, high] = m.to_le_bytes();
        return put(out, at, [7, low, high]);
    }
    at
}

// The records of the fact's monomials, which end at the place `end`: a fact that is 0 has none, and then nothing is looked at.
fn put_fact(heads: &Heads, out: &mut [u8], from: usize, end: usize) -> usize
    requires { (end ≡ from + length (bytes (archived_fact heads.now.ordered.letters.n heads.now.fact.now))) × (end ≤ length out.old) }
    ensures { Put out.old from (bytes (archived_fact heads.now.ordered.letters.n heads.now.fact.now)) result out.new }
{
    let mut at = from;
    for &m in heads.masks {
        if end <= at {
            return at;
        }
        at = put_if_present(heads.fact, m, out, at);
    }
    at
}

// The entry's start, its fact and its monomials; the fact's records take `size` bytes.
fn put_front(heads: &Heads, size: usize, codes: &[u16], out: &mut [u8]) -> usize
    requires { (size ≡ length (bytes (archived_fact heads.now.ordered.letters.n heads.now.fact.now)))
        × (4 + (length (bytes (heads_of heads.now)) + length (bytes (map listed_record codes.now))) ≤ length out.old) }
    ensures { Put out.old 0
        (1 ∷ heads.now.route ∷ heads.now.ordered.letters.unknowns ∷ heads.now.ordered.letters.givens
        ∷ (bytes (heads_of heads.now) ++ bytes (map listed_record codes.now))) result out.new }
{
    let started = put_start(heads, out);
    let end = started + size;
    let told = put_fact(heads, out, started, end);
    put_monomials(codes, out, told)
}

// The entry's end, and before it the state where there is no solution.
fn put_end(route: u8, none: Option<u8>, out: &mut [u8], at: usize) -> usize
    requires { at + length (bytes (none_records none ++ (end_record route ∷ []))) ≤ length out.old }
    ensures { Put out.old at (bytes (none_records none ++ (end_record route ∷ []))) result out.new }
{
    match none {
        Some(state) => put(out, at, [5, state, 4, route]),
        None => put(out, at, [4, route]),
    }
}

// The entry that was listed, at the start of `out`; the fact's records take `size` bytes.
fn compose(heads: &Heads, size: usize, found: Listing, codes: &[u16], out: &mut [u8]) -> usize
    requires { (size ≡ length (bytes (archived_fact heads.now.ordered.letters.n heads.now.fact.now))) × (count_of found ≤ length codes.now)
        × (length (entry_of heads.now found codes.now) ≤ length out.old) }
    ensures { Put out.old 0 (entry_of heads.now found codes.now) result out.new }
{
    let listed = put_front(heads, size, &codes[..found.all], out);
    put_end(heads.route, found.none, out, listed)
}

// How many bytes the monomials and the verdict take: three for a monomial of the condition, four for one of an answer, two for 'none'.
fn records_size(found: Listing) -> usize
    requires { (found.of_condition ≤ found.all) × (size_of found ≤ 27709) }
    ensures { result ≡ size_of found }
{
    let monomials = 3 * found.of_condition + 4 * (found.all - found.of_condition);
    match found.none {
        Some(_) => monomials + 2,
        None => monomials,
    }
}

// How many bytes the order takes.
fn order_size(ordered: OrderedLetters) -> usize
    ensures { (result ≡ length (bytes (archived_order ordered.letters.unknowns ordered.order))) × (result ≤ 7) }
{
    if entry::is_default(ordered.letters.unknowns, ordered.order) {
        0
    } else {
        7
    }
}

// How many bytes the fact takes: three for a monomial. No early way out, so that the loop is one of whole vectors.
fn fact_size(fact: &[u8]) -> usize
    requires { AreBits fact.now × (length fact.now ≤ 1024) }
    ensures { ((n : ℕ) → length fact.now ≡ 2 ^ n → result ≡ length (bytes (archived_fact n fact.now)))
        × (result ≤ 3072) }
{
    let mut count = 0usize;
    for &byte in fact {
        count += usize::from(byte);
    }
    3 * count
}

// Question 14 of a listed entry, before anything is written.
fn hand_out(heads: &Heads, found: Listing, codes: &[u16], out: &mut [u8]) -> Result<usize, Question>
    requires { Sized (heads_of heads.now) found codes.now (entry_of heads.now found codes.now) }
    ensures { answered (value_said result) (out.new ∷ [])
        ≡ hand_out (entry_of heads.now found codes.now) out.old }
{
    let facts = fact_size(heads.fact);
    let size = 6 + (order_size(heads.ordered) + facts + records_size(found));
    tables::require(Question::Output, size <= out.len())?;
    Ok(compose(heads, facts, found, codes, out))
}

// The condition's coefficients, and the values of what is solved, with room for them lent; `kept` has those of 1 + g.
fn list_table(
    ordered: OrderedLetters,
    condition: &[u8],
    kept: &[u64],
    coefficients: &mut [u64],
    values: &mut [u64],
    masks: &[u16],
    codes: &mut [u16],
) -> Listing
    requires tables { (ordered.letters.givens ≤ 8) × IsTable ordered.letters.n condition.now × AreKept ordered.letters.n kept.now }
    requires rooms { (length coefficients.old ≡ 2 ^ (ordered.letters.n - 6)) × (length values.old ≡ 2 ^ (ordered.letters.n - 6))
        × (masks.now ≡ written_order ordered.letters.n) × ((ordered.letters.unknowns + 1) * 2 ^ ordered.letters.n ≤ length codes.old) }
    ensures { (fact : List ℕ) → kept.now ≡ kept_words ordered.letters.n fact
        → Lists (posed ordered fact condition.now) result codes.new }
{
    words::pack(ordered.letters.n, condition, coefficients);
    transform(ordered.letters.n, coefficients, values);
    words::multiply_into(values, kept);
    list_entry(ordered, coefficients, values, masks, codes)
}

// The scratch words live here; `masks` is room for the written order, which it then has.
fn list_condition(
    ordered: OrderedLetters,
    condition: &[u8],
    kept: &[u64],
    masks: &mut [u16],
    codes: &mut [u16],
) -> Listing
    requires tables { (ordered.letters.givens ≤ 8) × IsTable ordered.letters.n condition.now × AreKept ordered.letters.n kept.now }
    requires rooms { (2 ^ ordered.letters.n ≤ length masks.old)
        × ((ordered.letters.unknowns + 1) * 2 ^ ordered.letters.n ≤ length codes.old) }
    ensures by_index { (fact : List ℕ) → kept.now ≡ kept_words ordered.letters.n fact
        → Lists (posed ordered fact condition.now) result codes.new }
    ensures masks_after { (take (2 ^ ordered.letters.n) masks.new ≡ written_order ordered.letters.n)
        × (length masks.new ≡ length masks.old) }
{
    let k = solver::word_count(ordered.letters);
    let mut coefficients = [0u64; 16];
    let mut values = [0u64; 16];
    order::fill_order(ordered.letters.n, masks);
    list_table(
        ordered,
        condition,
        kept,
        &mut coefficients[..k],
        &mut values[..k],
        &masks[..ordered.letters.table_len],
        codes,
    )
}

// `kept` has the values of 1 + g. Room for the written order and for all monomials that such an entry can have lives here, cleared before
// it is lent: `M` masks and `C` monomials.
fn write_in<const M: usize, const C: usize>(
    route: u8,
    ordered: OrderedLetters,
    fact: &[u8],
    condition: &[u8],
    kept: &[u64],
    out: &mut [u8],
) -> Result<usize, Question>
    requires { Ready ordered fact.now condition.now × (kept.now ≡ kept_words ordered.letters.n fact.now)
        × (2 ^ ordered.letters.n ≤ M) × ((ordered.letters.unknowns + 1) * 2 ^ ordered.letters.n ≤ C) × (M ≤ 1024) × (C ≤ 7168) }
    ensures { answered (value_said result) (out.new ∷ [])
        ≡ hand_out (entry route (posed ordered fact.now condition.now)) out.old }
{
    let mut masks = [0u16; M];
    let mut codes = [0u16; C];
    let found = list_condition(ordered, condition, kept, &mut masks, &mut codes);
    let heads = Heads {
        route,
        ordered,
        fact,
        masks: &masks[..ordered.letters.table_len],
    };
    hand_out(&heads, found, &codes, out)
}

// Questions 22 and 23 by `kept`, which is room for the values of 1 + g, then 14. Up to six letters need a sixteenth of the room for
// monomials.
fn write_tables(
    route: u8,
    ordered: OrderedLetters,
    fact: &[u8],
    condition: &[u8],
    kept: &mut [u64],
    out: &mut [u8],
) -> Result<usize, Question>
    requires { (ordered.letters.givens ≤ 8) × IsTable ordered.letters.n fact.now × IsTable ordered.letters.n condition.now
        × (length kept.old ≡ 2 ^ (ordered.letters.n - 6)) }
    ensures { answered (value_said result) (out.new ∷ [])
        ≡ hand_out_under ordered.letters.unknowns ordered.letters.givens fact.now
        (entry route (posed ordered fact.now condition.now)) out.old }
{
    facts::keep(ordered.letters, fact, kept)?;
    if ordered.letters.n <= 6 {
        return write_in::<64, 448>(route, ordered, fact, condition, kept, out);
    }
    write_in::<1024, 7168>(route, ordered, fact, condition, kept, out)
}

// Writes the entry of a condition table under a fact, solved by an order, to the front of `out`.
pub fn write_entry(
    route: usize,
    u: usize,
    g: usize,
    order: [u8; 6],
    fact: &[u8],
    condition: &[u8],
    out: &mut [u8],
) -> Result<usize, Question>
    ensures { answered (value_said result) (out.new ∷ [])
        ≡ write_call route u g order fact.now condition.now out.old }
{
    let ordered = questions::of_condition(route, u, g, order, fact, condition)?;
    let k = ordered.letters.table_len;
    let w = solver::word_count(ordered.letters);
    let mut kept = [0u64; 16];
    write_tables(
        route as u8,
        ordered,
        &fact[..k],
        &condition[..k],
        &mut kept[..w],
        out,
    )
}
