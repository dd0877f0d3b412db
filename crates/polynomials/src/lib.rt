// The work of the calls on tables that have passed the questions: the sum, the product, the join, the derivative, and polynomials put for the
// unknowns of a condition.
// Nothing here is a public call of the library: the functions are for the crates above, which ask the questions first
// and then lend slices of exactly the length that is needed. All but the sum go to values in words, and come back; `put_handed` stays there.
// What a product, a sum or a substitution comes to is counted where its table is made: the number of monomials present. The letters come as
// their number n, at most 10, as in `words`, but where unknowns are replaced.

#![tactic(auto)]

ghost use Rattle.std.specs.Prelude.{◌≡◌, cond, ◌++◌, ℕ, ◌+◌, ◌-◌, ◌*◌, ◌/◌, ◌%◌, ◌^◌, ◌≤◌, ◌<◌, length, get_or, drop};
ghost use Rattle.ring.specs.Letters.{bit, point_where};
ghost use Rattle.ring.specs.Lists.{listed};
ghost use Rattle.ring.specs.Polynomial.{Polynomial, count, value, sum, product, substitute};
ghost use Rattle.ring.specs.Join.{join};
ghost use Rattle.ring.specs.Derivative.{derivative};
ghost use Rattle.ring.specs.Length.{monomial_count};
ghost use Rattle.ring.specs.Table.{AreBits, IsTable, present, tabulate, table, held, for_unknowns};
ghost use Rattle.words.specs.Inner.Words.{word_of, words_of, bit_at, answer_words};
ghost use Rattle.polynomials.specs.Inner.LookUp.{chosen, place_of, put_for};

use tables::Letters;

// The sum of at most 128 bytes of each, and how many bytes of it are 1. That is a byte too, so that the loop is one of whole vectors.
fn add_few(a: &[u8], b: &[u8], out: &mut [u8]) -> u8
    requires { (length out.old ≤ 128) × (length a.now ≡ length out.old) × (length b.now ≡ length out.old)
        × AreBits a.now × AreBits b.now }
    ensures { (out.new ≡ tabulate (length out.old) (sum (present a.now) (present b.now)))
        × (result ≡ count (length out.old) (sum (present a.now) (present b.now))) }
{
    let mut ones = 0u8;
    for (i, byte) in out.iter_mut().enumerate() {
        *byte = a[i] ^ b[i];
        ones += *byte;
    }
    ones
}

// The same of any number of blocks of 128 bytes. By the number of the block, since after `chunks_exact_mut` a proof knows nothing of the bytes.
fn add_blocks(a: &[u8], b: &[u8], out: &mut [u8]) -> usize
    requires { (length out.old ≤ 1024) × (length out.old % 128 ≡ 0) × (length a.now ≡ length out.old) × (length b.now ≡ length out.old)
        × AreBits a.now × AreBits b.now }
    ensures { (out.new ≡ tabulate (length out.old) (sum (present a.now) (present b.now)))
        × (result ≡ count (length out.old) (sum (present a.now) (present b.now))) }
{
    let mut ones = 0;
    for w in 0..out.len() / 128 {
        let start = w * 128;
        let end = start + 128;
        ones += add_few(&a[start..end], &b[start..end], &mut out[start..end]) as usize;
    }
    ones
}

// The sum of two tables, into a third, and the number of its monomials.
pub fn add(n: usize, a: &[u8], b: &[u8], out: &mut [u8]) -> usize
    requires { (n ≤ 10) × IsTable n a.now × IsTable n b.now × (length out.old ≡ 2 ^ n) }
    ensures { (out.new ≡ table n (sum (present a.now) (present b.now)))
        × (result ≡ monomial_count n (present out.new)) }
{
    if n < 7 {
        return add_few(a, b, out) as usize;
    }
    add_blocks(a, b, out)
}

// The product of two tables, into a third, and the number of its monomials, 0 unless it counts them. The scratch words live here.
#[tactic(auto, using(words::proofs::Letters::count_small, words::proofs::Words::size_words))]
pub fn multiply(n: usize, a: &[u8], b: &[u8], out: &mut [u8], counts: bool) -> usize
    requires { (n ≤ 10) × IsTable n a.now × IsTable n b.now × (length out.old ≡ 2 ^ n) }
    ensures { (out.new ≡ table n (product n (present a.now) (present b.now)))
        × (result ≡ cond counts (monomial_count n (present out.new)) 0) }
{
    let k = words::word_count(n);
    let mut first_room = [0u64; 16];
    let mut second_room = [0u64; 16];
    let first = &mut first_room[..k];
    let second = &mut second_room[..k];
    words::take_values(n, a, first);
    words::take_values(n, b, second);
    words::multiply_into(first, second);
    if counts {
        return words::put_counted(n, first, out);
    }
    words::put_table(n, first, out);
    0
}

// Two tables joined, into a third: f + h + f*h.
pub fn join(n: usize, a: &[u8], b: &[u8], out: &mut [u8])
    requires { (n ≤ 10) × IsTable n a.now × IsTable n b.now × (length out.old ≡ 2 ^ n) }
    ensures { out.new ≡ table n (join n (present a.now) (present b.now)) }
{
    multiply(n, a, b, out, false);
    tables::add_into(out, a);
    tables::add_into(out, b);
}

// The derivative of a table by the letters of the mask s: at each point its value plus that at the flipped point. The scratch words live here.
#[tactic(auto, using(words::proofs::Letters::count_small, words::proofs::Words::size_words))]
pub fn derive(n: usize, t: &[u8], s: usize, out: &mut [u8])
    requires { (n ≤ 10) × IsTable n t.now × (s < 2 ^ n) × (length out.old ≡ 2 ^ n) }
    ensures { out.new ≡ table n (derivative n s (present t.now)) }
{
    let k = words::word_count(n);
    let mut values_room = [0u64; 16];
    let mut flipped_room = [0u64; 16];
    let values = &mut values_room[..k];
    let flipped = &mut flipped_room[..k];
    words::take_values(n, t, values);
    words::flip(values, s, words::further(n), flipped);
    words::add_into(values, flipped);
    words::put_table(n, values, out);
}

// One bit of a word at all points.
fn full(word: u64, p: usize) -> u64
    requires { p < 64 }
    ensures { result ≡ word_of (λ i. bit word p) }
{
    ((word >> p) & 1) * 0xffff_ffff_ffff_ffff
}

// Of four bits, point by point the one at the place that a and b make.
fn four(bits: u64, a: u64, b: u64) -> u64
    ensures { result ≡ word_of (λ i. bit bits (place_of a b i)) }
{
    let clear = words::pick(a, full(bits, 0), full(bits, 1));
    let set = words::pick(a, full(bits, 2), full(bits, 3));
    words::pick(b, clear, set)
}

// The same for all four bits that there are.
fn each_four(a: u64, b: u64, s: &mut [u64])
    requires { length s.old ≡ 16 }
    ensures { s.new ≡ listed 16 (λ x. word_of (λ i. bit x (place_of a b i))) }
{
    for (x, word) in s.iter_mut().enumerate() {
        *word = four(x as u64, a, b);
    }
}

// The word of each four bits of a word.
fn take_fours(word: u64, s: &[u64], t: &mut [u64])
    requires { (length s.now ≡ 16) × (length t.old ≡ 16) }
    ensures { t.new ≡ listed 16 (λ q. get_or s.now (word / 2 ^ (4 * q) % 16) 0) }
{
    for (q, chosen) in t.iter_mut().enumerate() {
        *chosen = s[((word >> (4 * q)) & 15) as usize];
    }
}

// Of each two words that differ in one letter, point by point the one that b chooses.
fn choose(t: &mut [u64], b: u64, half: usize)
    requires { half + half ≤ length t.old }
    ensures { t.new
        ≡ listed half (λ p. chosen b (get_or t.old p 0) (get_or t.old (p + half) 0)) ++ drop half t.old }
{
    let (clear, set) = t.split_at_mut(half);
    for (p, word) in clear.iter_mut().enumerate() {
        *word = words::pick(b, *word, set[p]);
    }
}

// The word's value at each of its points after the six lowest letters have been replaced, letter j by word w of the part j.
// The two lowest at once, by what stands for each four bits, then the others from the last on.
fn look_up_word(word: u64, parts: &[u64], k: usize, w: usize, t: &mut [u64], s: &mut [u64]) -> u64
    requires { (length parts.now ≡ 6 * k) × (k ≤ 16) × (w < k) × (length t.old ≡ 16) × (length s.old ≡ 16) }
    ensures { result ≡ word_of (λ i. bit word (point_where 6 (λ j. bit (get_or parts.now (j * k + w) 0) i))) }
{
    each_four(parts[w], parts[k + w], s);
    take_fours(word, s, t);
    // By the letter's number.
    for j in (2..6).rev() {
        choose(t, parts[j * k + w], tables::pow2(j - 2));
    }
    t[0]
}

// The six lowest letters replaced by the parts, all at once.
fn look_up(f: &mut [u64], parts: &[u64], t: &mut [u64], s: &mut [u64])
    requires { (length parts.now ≡ 6 * length f.old) × (length f.old ≤ 16) × (length t.old ≡ 16) × (length s.old ≡ 16) }
    ensures { f.new
        ≡ words_of (length f.old) (λ p. bit_at f.old (64 * (p / 64) + point_where 6 (λ j. bit_at parts.now (j * (64 * length f.old) + p)))) }
{
    let k = f.len();
    for (w, word) in f.iter_mut().enumerate() {
        *word = look_up_word(*word, parts, k, w, t, s);
    }
}

// The values of what is put for letter j: the handed polynomial for an unknown, and the letter itself for a given.
fn take_part(u: usize, n: usize, j: usize, handed: &[u8], part: &mut [u64])
    requires { (n ≤ 10) × (j < 6) × (length handed.now ≡ u * 2 ^ n) × AreBits handed.now × (length part.old ≡ 2 ^ (n - 6)) }
    ensures { part.new ≡ words_of (2 ^ (n - 6)) (put_for u n handed.now j) }
{
    if j < u {
        let size = tables::pow2(n);
        let start = j * size;
        let end = start + size;
        words::take_values(n, &handed[start..end], part);
    } else {
        words::letter(j, part);
    }
}

// The same for each of the six lowest letters. By the number of the letter, since after `chunks_exact_mut` a proof knows nothing of the words.
fn take_parts(u: usize, n: usize, handed: &[u8], parts: &mut [u64])
    requires { (n ≤ 10) × (u ≤ 6) × (length handed.now ≡ u * 2 ^ n) × AreBits handed.now × (length parts.old ≡ 6 * 2 ^ (n - 6)) }
    ensures { parts.new ≡ answer_words 6 (2 ^ (n - 6)) (put_for u n handed.now) }
{
    let k = words::word_count(n);
    for j in 0..6 {
        let start = j * k;
        let end = start + k;
        take_part(u, n, j, handed, &mut parts[start..end]);
    }
}

// Handed polynomials put for the unknowns, all at once, into a condition that stands by its values; the givens stay. `parts` is left with the
// values of what was put for each of the six lowest letters: the handed polynomials first.
pub fn put_handed(u: usize, n: usize, handed: &[u8], f: &mut [u64], parts: &mut [u64])
    requires { (u ≤ 6) × (u ≤ n) × (n ≤ 10) × (length handed.now ≡ u * 2 ^ n) × AreBits handed.now × (length f.old ≡ 2 ^ (n - 6))
        × (length parts.old ≡ 6 * 2 ^ (n - 6)) }
    ensures { ((F : Polynomial) → f.old ≡ words_of (2 ^ (n - 6)) (value n F) → (p : ℕ) → p < 2 ^ n
        → bit_at f.new p ≡ value n (substitute n n F (for_unknowns u (held n handed.now))) p)
        × (length f.new ≡ 2 ^ (n - 6))
        × (parts.new ≡ answer_words 6 (2 ^ (n - 6)) (put_for u n handed.now)) }
{
    let mut t = [0u64; 16];
    let mut s = [0u64; 16];
    take_parts(u, n, handed, parts);
    look_up(f, parts, &mut t, &mut s);
}

// Handed polynomials put for the unknowns of a condition, all at once, and the number of monomials of what comes out; the givens stay. The
// scratch words live here.
#[tactic(auto, using(words::proofs::Letters::count_small, words::proofs::Words::size_words))]
pub fn substitute(letters: Letters, condition: &[u8], handed: &[u8], out: &mut [u8]) -> usize
    requires { IsTable letters.n condition.now × (length handed.now ≡ letters.unknowns * 2 ^ letters.n) × AreBits handed.now
        × (length out.old ≡ 2 ^ letters.n) }
    ensures { (out.new
        ≡ table letters.n (substitute letters.n letters.n (present condition.now) (for_unknowns letters.unknowns (held letters.n handed.now))))
        × (result ≡ monomial_count letters.n (present out.new)) }
{
    let k = words::word_count(letters.n);
    let mut f_room = [0u64; 16];
    let mut parts_room = [0u64; 96];
    let f = &mut f_room[..k];
    let parts = &mut parts_room[..6 * k];
    words::take_values(letters.n, condition, f);
    put_handed(letters.unknowns, letters.n, handed, f, parts);
    words::put_counted(letters.n, f, out)
}
