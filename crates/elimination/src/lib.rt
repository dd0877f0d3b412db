// Boole's elimination on truth values, 64 points to a word, in any order of the unknowns: each stage's values are kept, and the way back
// goes from the last, the later answers put in one letter at a time. Up to six letters are one word, and have functions of their own, since
// those for many words take three to five times as long there.
// An order is a plain list of letters: the recursive functions go down it, and its tails list only some of the unknowns.
// `solver` asks the questions first; nothing here is a public call of the library.
// The contracts cite the method at points (`solution/specs/Inner/ByPoints.antt`), which the laws of `solution` tie to the polynomials.

#![tactic(auto)]

ghost use Rattle.std.specs.Prelude.{◌≡◌, true, ◌+◌, ◌-◌, ◌*◌, ◌^◌, ◌≤◌, ◌<◌, length};
ghost use Rattle.ring.specs.Letters.{bit};
ghost use Rattle.ring.specs.Lists.{listed, has};
ghost use Rattle.solution.specs.Condition.{IsOrder, ListsEach};
ghost use Rattle.solution.specs.Elimination.{smallest_below};
ghost use Rattle.solution.specs.Inner.ByPoints.{both_cases, remains_through, answered_through};
ghost use Rattle.words.specs.Inner.Words.{word_of, words_of, bit_at, answer_words};
ghost use Rattle.elimination.specs.Inner.Stages.{InLetters, IgnoresUnknowns, no_repeats};
ghost use Rattle.elimination.specs.Inner.Stages.{stage_words, slot_words, put_words, first_answered, place_of, slot_word};
ghost use Rattle.elimination.specs.Inner.Stages.{answered_words, put_placed};

use tables::Letters;

// f into `stage`, and then the product of its two cases of x in its place.
fn keep_stage(x: usize, c: usize, f: &mut [u64], stage: &mut [u64])
    requires { (x < 6 + c) × (c ≤ 4) × (length f.old ≡ 2 ^ c) × (length stage.old ≡ 2 ^ c) }
    ensures f_after { f.new ≡ words_of (2 ^ c) (both_cases (bit_at f.old) x) }
    ensures stage_after { stage.new ≡ f.old }
{
    words::copy(stage, f);
    words::both_cases(stage, x, c, f);
}

// What remains in f, and in `stages` the condition before each unknown goes.
fn keep_stages(order: &[usize], c: usize, f: &mut [u64], stages: &mut [u64])
    requires { (c ≤ 4) × InLetters (6 + c) order.now × (length f.old ≡ 2 ^ c) × (length stages.old ≡ length order.now * 2 ^ c) }
    ensures f_after { f.new ≡ words_of (2 ^ c) (remains_through (bit_at f.old) order.now) }
    ensures stages_after { stages.new ≡ stage_words (2 ^ c) (bit_at f.old) order.now }
{
    let [x, later @ ..] = order else {
        return;
    };
    let k = tables::pow2(c);
    keep_stage(*x, c, f, &mut stages[..k]);
    keep_stages(later, c, f, &mut stages[k..]);
}

// a with the values in `slots` put for the letters of the order, the last one first.
fn put_later(order: &[usize], c: usize, slots: &[u64], a: &mut [u64])
    requires { (c ≤ 4) × InLetters (6 + c) order.now × (length slots.now ≡ length order.now * 2 ^ c) × (length a.old ≡ 2 ^ c) }
    ensures { a.new
        ≡ words_of (2 ^ c) (put_words (2 ^ c) slots.now order.now (bit_at a.old)) }
{
    let [x, later @ ..] = order else {
        return;
    };
    let k = tables::pow2(c);
    put_later(later, c, &slots[k..], a);
    words::replace_in(a, *x, &slots[..k], c);
}

// The answer for the first unknown of the order in the place of its stage, the later answers standing behind. The scratch words live here.
fn answer_first(order: &[usize], c: usize, stages: &mut [u64])
    requires { (c ≤ 4) × (0 < length order.now) × InLetters (6 + c) order.now × (length stages.old ≡ length order.now * 2 ^ c) }
    ensures { stages.new ≡ first_answered (2 ^ c) order.now stages.old }
{
    let k = tables::pow2(c);
    let mut room = [0u64; 16];
    let own = &mut room[..k];
    words::copy(own, &stages[..k]);
    words::add_letter(own, order[0]);
    put_later(&order[1..], c, &stages[k..], own);
    words::copy(&mut stages[..k], own);
}

// The answers in the place of the stages, the last unknown first.
fn answer_all(order: &[usize], c: usize, stages: &mut [u64])
    requires { (c ≤ 4) × InLetters (6 + c) order.now × (no_repeats order.now ≡ true)
        × (stages.old ≡ stage_words (2 ^ c) (bit_at stages.old) order.now) }
    ensures { stages.new ≡ slot_words (2 ^ c) (bit_at stages.old) order.now }
{
    if order.len() == 0 {
        return;
    }
    let k = tables::pow2(c);
    answer_all(&order[1..], c, &mut stages[k..]);
    answer_first(order, c, stages);
}

// The first state in which something remains, 2 ^ givens if there is none: that of the first point, since what remains does not turn on the
// unknowns.
fn first_state(letters: Letters, f: &[u64]) -> usize
    requires { (length f.now ≡ 2 ^ (letters.n - 6)) × IgnoresUnknowns letters.unknowns (2 ^ (letters.n - 6)) (bit_at f.now) }
    ensures { result ≡ smallest_below (2 ^ letters.givens) (λ s. bit_at f.now (s * 2 ^ letters.unknowns)) }
{
    let end = tables::pow2(letters.givens);
    let state = words::first_one(f) >> letters.unknowns;
    if state < end {
        return state;
    }
    end
}

// Where x stands in the order.
fn place(order: &[usize], x: usize) -> usize
    requires { has x order.now ≡ true }
    ensures { (result ≡ place_of order.now x) × (result < length order.now) }
{
    order.iter().position(|y| *y == x).unwrap()
}

// Elimination, and the answers in the order's slots, unless something remains. Uses up the values f of the condition.
// Answers the first state in which something remains, 2 ^ givens if there is none.
fn solve_slots(letters: Letters, order: &[usize], f: &mut [u64], slots: &mut [u64]) -> usize
    requires { IsOrder letters.unknowns order.now × (no_repeats order.now ≡ true)
        × (length f.old ≡ 2 ^ (letters.n - 6)) × (length slots.old ≡ length order.now * 2 ^ (letters.n - 6)) }
    ensures value { result ≡ smallest_below (2 ^ letters.givens)
        (λ s. remains_through (bit_at f.old) order.now (s * 2 ^ letters.unknowns)) }
    ensures slots_after { 2 ^ letters.givens ≤ result
        → slots.new ≡ slot_words (2 ^ (letters.n - 6)) (bit_at f.old) order.now }
{
    let c = words::further(letters.n);
    keep_stages(order, c, f, slots);
    let state = first_state(letters, f);
    if state < tables::pow2(letters.givens) {
        return state;
    }
    answer_all(order, c, slots);
    state
}

// The answers by unknown, unknown 0 first, from the order's slots. By the number of the unknown, since after `chunks_exact_mut` a proof knows
// nothing of the answers.
fn arrange(u: usize, c: usize, order: &[usize], slots: &[u64], answers: &mut [u64])
    requires { (c ≤ 4) × IsOrder u order.now
        × (length slots.now ≡ length order.now * 2 ^ c) × (length answers.old ≡ u * 2 ^ c) }
    ensures { answers.new ≡ listed (u * 2 ^ c) (slot_word (2 ^ c) order.now slots.now) }
{
    let k = tables::pow2(c);
    for x in 0..u {
        let start = place(order, x) * k;
        let end = start + k;
        let from = x * k;
        let to = from + k;
        words::copy(&mut answers[from..to], &slots[start..end]);
    }
}

// a with the words in `answers` put for the letters of the order, the last one first.
fn put_placed(order: &[usize], answers: &[u64], a: u64) -> u64
    requires { InLetters (length answers.now) order.now × (length answers.now ≤ 6) }
    ensures { result ≡ word_of (put_placed answers.now order.now (bit a)) }
{
    let mut put = a;
    for x in order.iter().rev() {
        put = words::replace_word(put, *x, answers[*x]);
    }
    put
}

// Elimination in one word: what remains of f, and each unknown's answer in its place, the last unknown first. The values before an
// unknown goes wait in its own call.
fn answer_word(order: &[usize], f: u64, answers: &mut [u64]) -> u64
    requires { InLetters (length answers.old) order.now × (length answers.old ≤ 6) × (no_repeats order.now ≡ true) }
    ensures value { result ≡ word_of (remains_through (bit f) order.now) }
    ensures answers_after { answers.new ≡ answered_words (bit f) order.now answers.old }
{
    let [x, later @ ..] = order else {
        return f;
    };
    let remains = answer_word(later, words::both_word(f, *x), answers);
    answers[*x] = put_placed(later, answers, f ^ words::low_letter(*x));
    remains
}

// Up to six letters, whose values are one word: nothing is kept in scratch words, and nothing loops over them.
fn solve_word(letters: Letters, order: &[usize], f: &mut [u64], answers: &mut [u64]) -> usize
    requires { (letters.n ≤ 6) × IsOrder letters.unknowns order.now × (no_repeats order.now ≡ true)
        × (length f.old ≡ 2 ^ (letters.n - 6)) × (length answers.old ≡ letters.unknowns * 2 ^ (letters.n - 6)) }
    ensures value { result ≡ smallest_below (2 ^ letters.givens)
        (λ s. remains_through (bit_at f.old) order.now (s * 2 ^ letters.unknowns)) }
    ensures answers_after { answers.new
        ≡ answer_words letters.unknowns (2 ^ (letters.n - 6)) (λ x p. bit (answered_through (bit_at f.old) order.now p) x) }
{
    f[0] = answer_word(order, f[0], answers);
    first_state(letters, f)
}

// From the values f of a condition, which it uses up, to the values of Boole's answers, unless something remains.
// Answers the first state in which something remains, 2 ^ givens if there is none. The scratch words live here.
pub fn solve_words(letters: Letters, order: &[usize], f: &mut [u64], answers: &mut [u64]) -> usize
    requires { ListsEach letters.unknowns order.now
        × (length f.old ≡ 2 ^ (letters.n - 6)) × (length answers.old ≡ letters.unknowns * 2 ^ (letters.n - 6)) }
    ensures value { result ≡ smallest_below (2 ^ letters.givens)
        (λ s. remains_through (bit_at f.old) order.now (s * 2 ^ letters.unknowns)) }
    ensures answers_after { 2 ^ letters.givens ≤ result
        → answers.new
        ≡ answer_words letters.unknowns (2 ^ (letters.n - 6)) (λ x p. bit (answered_through (bit_at f.old) order.now p) x) }
{
    if letters.n <= 6 {
        return solve_word(letters, order, f, answers);
    }
    let all = order.len() * words::word_count(letters.n);
    let mut room = [0u64; 96];
    let slots = &mut room[..all];
    let state = solve_slots(letters, order, f, slots);
    if state < tables::pow2(letters.givens) {
        return state;
    }
    arrange(
        letters.unknowns,
        words::further(letters.n),
        order,
        slots,
        answers,
    );
    state
}
