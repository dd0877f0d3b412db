// The bottom of words: truth values of a polynomial, 64 points to a word, and the work on them.
// Words have six letters or more: a polynomial in fewer is taken as one in six. `c` is the number of letters beyond six. The letters come as
// their number n, at most 10, and not as `Letters`: here unknowns and givens are the same.
// Nothing here is a public call of the library: the functions are for the crates above, which ask the questions first
// and then lend slices of exactly the length that is needed.

#![tactic(auto)]

ghost use Rattle.std.specs.Prelude.{◌≡◌, ◌++◌, Bool, true, false, ◌&&◌, cond, ℕ, ◌+◌, ◌-◌, ◌*◌, ◌/◌, ◌%◌, ◌^◌, ◌≤◌, ◌<◌, length, get_or, take};
ghost use Rattle.std.specs.Int.Bits.{bit_and, bit_or, bit_xor};
ghost use Rattle.ring.specs.Lists.{listed};
ghost use Rattle.ring.specs.Letters.{bit, assign};
ghost use Rattle.ring.specs.Polynomial.{◌⊕◌, count, value};
ghost use Rattle.ring.specs.Derivative.{flipped};
ghost use Rattle.ring.specs.Table.{AreBits, IsTable, present, tabulate, table};
ghost use Rattle.ring.specs.Length.{monomial_count};
ghost use Rattle.words.specs.Inner.Words.{word_of, words_of, bit_at, First, low_letters, stepped, stepped_below, turned, crossed, GivesValues};
ghost use Rattle.words.specs.Inner.Words.{eight_of, ones_of};

// The number of words of n letters.
pub fn word_count(n: usize) -> usize
    requires { n ≤ 10 }
    ensures { result ≡ 2 ^ (n - 6) }
{
    if n < 6 {
        return 1;
    }
    tables::pow2(n - 6)
}

// The letters beyond six.
pub fn further(n: usize) -> usize
    ensures { result ≡ n - 6 }
{
    if n < 6 {
        return 0;
    }
    n - 6
}

// The word of at most 64 bytes, the last first: for tables that are too short to take eight at a time.
fn pack_word(t: &[u8]) -> u64
    requires { (length t.now ≤ 64) × AreBits t.now }
    ensures { result ≡ word_of (present t.now) }
{
    let mut word = 0u64;
    for byte in t.iter().rev() {
        word = word * 2 + u64::from(*byte);
    }
    word
}

// Eight bytes as the bytes of a word, the first one lowest.
fn eight(t: &[u8], at: usize) -> u64
    requires { (at + 8 ≤ length t.now) × AreBits t.now }
    ensures { (result ≡ eight_of (present t.now) at) × (result ≤ 0x0101_0101_0101_0101) }
{
    let bytes: [u8; 8] = t[at..at + 8].try_into().unwrap();
    u64::from_le_bytes(bytes)
}

// 64 bytes as a word that is crossed: eight at a time they stand in its bytes, those behind them a bit higher.
fn gather(t: &[u8]) -> u64
    requires { (length t.now ≡ 64) × AreBits t.now }
    ensures { result ≡ word_of (λ i. present t.now (crossed i)) }
{
    let high = ((eight(t, 56) * 2 + eight(t, 48)) * 2 + eight(t, 40)) * 2 + eight(t, 32);
    (((high * 2 + eight(t, 24)) * 2 + eight(t, 16)) * 2 + eight(t, 8)) * 2 + eight(t, 0)
}

// The same of fewer bytes, still eight at a time, by the place of each eight, which `eight` takes.
fn gather_few(t: &[u8]) -> u64
    requires { (length t.now ≤ 64) × (length t.now % 8 ≡ 0) × AreBits t.now }
    ensures { result ≡ word_of (λ i. present t.now (crossed i)) }
{
    let mut word = 0u64;
    for j in (0..t.len() / 8).rev() {
        word = word * 2 + eight(t, j * 8);
    }
    word
}

// A word, crossed, for each 64 bytes.
fn gather_all(t: &[u8], words: &mut [u64])
    requires { (length t.now ≡ 64 * length words.old) × AreBits t.now }
    ensures { words.new ≡ words_of (length words.old) (λ p. present t.now (crossed p)) }
{
    put_each(words, |w, _| {
        let start = w * 64;
        let end = start + 64;
        gather(&t[start..end])
    });
}

// The word crossed, by three exchanges of one letter with one.
fn cross(word: u64) -> u64
    ensures { result ≡ word_of (λ i. bit word (crossed i)) }
{
    let a = (word ^ (word >> 7)) & 0x00aa_00aa_00aa_00aa;
    let first = word ^ a ^ (a << 7);
    let b = (first ^ (first >> 14)) & 0x0000_cccc_0000_cccc;
    let second = first ^ b ^ (b << 14);
    let c = (second ^ (second >> 28)) & 0x0000_0000_f0f0_f0f0;
    second ^ c ^ (c << 28)
}

// Each word crossed.
fn cross_all(words: &mut [u64])
    ensures { words.new ≡ words_of (length words.old) (λ p. bit_at words.old (crossed p)) }
{
    put_each(words, |_, word| cross(word));
}

// The bytes of a table into words. Fewer than six letters leave the points behind the table's end at 0.
pub fn pack(n: usize, t: &[u8], words: &mut [u64])
    requires { (n ≤ 10) × IsTable n t.now × (length words.old ≡ 2 ^ (n - 6)) }
    ensures { words.new ≡ words_of (2 ^ (n - 6)) (present t.now) }
{
    if n < 3 {
        words[0] = pack_word(t);
        return;
    }
    if n < 6 {
        words[0] = cross(gather_few(t));
        return;
    }
    gather_all(t, words);
    cross_all(words);
}

// The bytes of a word, the lowest first.
fn put_eight(word: u64, out: &mut [u8])
    requires { length out.old ≡ 8 }
    ensures { out.new ≡ listed 8 (λ i. word / 2 ^ (8 * i) % 256) }
{
    out.copy_from_slice(&word.to_le_bytes());
}

// The bits of a crossed word, a byte each, eight at a time. By the number of the eight, since after `chunks_exact_mut` a proof knows nothing of
// the bytes; so it is in `unpack_all` too.
fn unpack_word(word: u64, out: &mut [u8])
    requires { (length out.old ≤ 64) × (length out.old % 8 ≡ 0) }
    ensures { out.new ≡ tabulate (length out.old) (λ p. bit word (crossed p)) }
{
    for j in 0..out.len() / 8 {
        let start = j * 8;
        let end = start + 8;
        put_eight((word >> j) & 0x0101_0101_0101_0101, &mut out[start..end]);
    }
}

// The values that crossed words hold, a byte each, and how many of them are 1. Counted as the words pass: where nobody asks for the number the
// compiler leaves it out.
fn unpack_all(words: &[u64], out: &mut [u8]) -> usize
    requires { length out.old ≡ 64 * length words.now }
    ensures { (out.new ≡ tabulate (length out.old) (λ p. bit_at words.now (crossed p)))
        × (result ≡ count (64 * length words.now) (bit_at words.now)) }
{
    let mut found = 0;
    for w in 0..words.len() {
        let start = w * 64;
        let end = start + 64;
        unpack_word(words[w], &mut out[start..end]);
        found += ones(words[w]) as usize;
    }
    found
}

// The values that words hold, a byte each.
fn unpack_each(words: &[u64], out: &mut [u8])
    requires { length out.old ≤ 64 * length words.now }
    ensures { out.new ≡ tabulate (length out.old) (bit_at words.now) }
{
    for (p, byte) in out.iter_mut().enumerate() {
        *byte = u8::from(value_at(words, p));
    }
}

// The values that words hold, which it uses up, as a table.
fn unpack(n: usize, words: &mut [u64], out: &mut [u8])
    requires { (n ≤ 10) × (length words.old ≡ 2 ^ (n - 6)) × (length out.old ≡ 2 ^ n) }
    ensures { out.new ≡ table n (bit_at words.old) }
{
    if n < 3 {
        unpack_each(words, out);
        return;
    }
    cross_all(words);
    if n < 6 {
        unpack_word(words[0], out);
        return;
    }
    unpack_all(words, out);
}

// The value that words hold at a point.
pub fn value_at(words: &[u64], p: usize) -> bool
    requires { p < 64 * length words.now }
    ensures { result ≡ bit_at words.now p }
{
    (words[p >> 6] >> (p & 63)) & 1 == 1
}

// A letter below six at the 64 points of a word. By a match, since a constant array would be built anew at each call.
pub fn low_letter(x: usize) -> u64
    ensures { result ≡ get_or low_letters x 0 }
{
    match x {
        0 => 0xaaaa_aaaa_aaaa_aaaa,
        1 => 0xcccc_cccc_cccc_cccc,
        2 => 0xf0f0_f0f0_f0f0_f0f0,
        3 => 0xff00_ff00_ff00_ff00,
        4 => 0xffff_0000_ffff_0000,
        5 => 0xffff_ffff_0000_0000,
        _ => 0,
    }
}

// The word with one value at all its points.
fn constant_word(value: bool) -> u64
    ensures { result ≡ cond value 0xffff_ffff_ffff_ffff 0 }
{
    if value { 0xffff_ffff_ffff_ffff } else { 0 }
}

// Letter x at the points of word w.
fn letter_word(x: usize, w: usize) -> u64
    requires { x < 10 }
    ensures { result ≡ word_of (λ i. bit (64 * w + i) x) }
{
    if x < 6 {
        return low_letter(x);
    }
    constant_word((w >> (x - 6)) % 2 == 1)
}

// One letter's step within a word.
fn step_word(word: u64, j: usize) -> u64
    requires { j < 6 }
    ensures { result ≡ word_of (stepped (bit word) j) }
{
    word ^ ((word << tables::pow2(j)) & low_letter(j))
}

// The steps of the six lowest letters, by their numbers.
fn word_values(word: u64) -> u64
    ensures { result ≡ word_of (stepped_below 6 (bit word)) }
{
    let mut v = word;
    for j in (0..6).rev() {
        v = step_word(v, j);
    }
    v
}

// The steps of the six lowest letters, word by word.
fn low_values(t: &mut [u64])
    ensures { t.new ≡ words_of (length t.old) (stepped_below 6 (bit_at t.old)) }
{
    put_each(t, |_, word| word_values(word));
}

// The first half of a block added to the second.
fn add_half(block: &mut [u64], half: usize)
    requires { length block.old ≡ 2 * half }
    ensures { block.new
        ≡ take half block.old ++ words_of half (λ p. bit_at block.old (64 * half + p) ⊕ bit_at block.old p) }
{
    let (low, high) = block.split_at_mut(half);
    add_into(high, low);
}

// The step of letter 6 + j of 6 + c: in each block of words the first half is added to the second. By the number of the block, since after
// `chunks_exact_mut` a proof knows nothing of the words.
fn step_words(t: &mut [u64], j: usize, c: usize)
    requires { (j < c) × (c ≤ 4) × (length t.old ≡ 2 ^ c) }
    ensures { t.new ≡ words_of (2 ^ c) (stepped (bit_at t.old) (6 + j)) }
{
    let half = tables::pow2(j);
    let size = 2 * half;
    let blocks = tables::pow2(c - j - 1);
    for b in 0..blocks {
        let start = b * size;
        let end = start + size;
        add_half(&mut t[start..end], half);
    }
}

// From coefficients to values, or back, in place, of 6 + c letters, by their numbers: the last first.
fn pass(t: &mut [u64], c: usize)
    requires { (c ≤ 4) × (length t.old ≡ 2 ^ c) }
    ensures { t.new ≡ words_of (2 ^ c) (value (6 + c) (bit_at t.old)) }
{
    for j in (0..c).rev() {
        step_words(t, j, c);
    }
    low_values(t);
}

// The same of two to eight words. Each number of letters has a call of its own, so that all widths are literals; not inlined, since callers
// of a single word would else carry the code of all widths.
#[inline(never)]
fn pass_each(t: &mut [u64], c: usize)
    requires { (0 < c) × (c < 4) × (length t.old ≡ 2 ^ c) }
    ensures { t.new ≡ words_of (2 ^ c) (value (6 + c) (bit_at t.old)) }
{
    match c {
        1 => pass(t, 1),
        2 => pass(t, 2),
        _ => pass(t, 3),
    }
}

// The same. Up to six letters are one word, which needs no loop; ten have a call of their own here, with which a product that counts and one
// that does not run the same code.
pub fn to_values(t: &mut [u64], c: usize)
    requires { (c ≤ 4) × (length t.old ≡ 2 ^ c) }
    ensures { t.new ≡ words_of (2 ^ c) (value (6 + c) (bit_at t.old)) }
{
    if c == 4 {
        pass(t, 4);
        return;
    }
    if c == 0 {
        t[0] = word_values(t[0]);
        return;
    }
    pass_each(t, c);
}

// The values of a table of coefficients, in words.
pub fn take_values(n: usize, t: &[u8], words: &mut [u64])
    requires { (n ≤ 10) × IsTable n t.now × (length words.old ≡ 2 ^ (n - 6)) }
    ensures { words.new ≡ words_of (2 ^ (n - 6)) (value n (present t.now)) }
{
    pack(n, t, words);
    to_values(words, further(n));
}

// The table of coefficients whose values stand in words, which it uses up.
pub fn put_table(n: usize, words: &mut [u64], out: &mut [u8])
    requires { (n ≤ 10) × (length words.old ≡ 2 ^ (n - 6)) × (length out.old ≡ 2 ^ n) }
    ensures { out.new ≡ table n (value n (bit_at words.old)) }
{
    to_values(words, further(n));
    unpack(n, words, out);
}

// The ones of a word.
fn ones(word: u64) -> u64
    ensures { (result ≡ ones_of word) × (result ≤ 64) }
{
    u64::count_ones(word) as u64
}

// The ones among the first points of a word, as many as n letters have.
fn count_few(n: usize, word: u64) -> usize
    requires { n < 6 }
    ensures { result ≡ count (2 ^ n) (bit word) }
{
    let end = 1u64 << tables::pow2(n);
    ones(word & (end - 1)) as usize
}

// The table of coefficients whose values stand in words, which it uses up, and the number of its monomials: the ones of the words that its
// bytes come from.
pub fn put_counted(n: usize, words: &mut [u64], out: &mut [u8]) -> usize
    requires { (n ≤ 10) × (length words.old ≡ 2 ^ (n - 6)) × (length out.old ≡ 2 ^ n) }
    ensures { (out.new ≡ table n (value n (bit_at words.old)))
        × (result ≡ monomial_count n (present out.new)) }
{
    to_values(words, further(n));
    if n < 6 {
        let found = count_few(n, words[0]);
        unpack(n, words, out);
        return found;
    }
    cross_all(words);
    unpack_all(words, out)
}

// The same of words that stay. The scratch words live here.
pub fn put_copy(n: usize, slot: &[u64], out: &mut [u8]) -> usize
    requires { (n ≤ 10) × (length slot.now ≡ 2 ^ (n - 6)) × (length out.old ≡ 2 ^ n) }
    ensures { (out.new ≡ table n (value n (bit_at slot.now)))
        × (result ≡ monomial_count n (present out.new)) }
{
    let k = word_count(n);
    let mut room = [0u64; 16];
    let own = &mut room[..k];
    copy(own, slot);
    put_counted(n, own, out)
}

// Word by word: by the library's method an archive for C would need one more function of the C library (`memmove`).
pub fn copy(d: &mut [u64], s: &[u64])
    requires { length d.old ≡ length s.now }
    ensures { d.new ≡ s.now }
{
    for (i, word) in d.iter_mut().enumerate() {
        *word = s[i];
    }
}

// The values of letter x.
pub fn letter(x: usize, out: &mut [u64])
    requires { x < 10 }
    ensures { out.new ≡ words_of (length out.old) (λ p. bit p x) }
{
    put_each(out, |i, _| letter_word(x, i));
}

// Puts in each word's place what f makes of its number and of it.
fn put_each<F: Fn(usize, u64) -> u64>(words: &mut [u64], f: F)
    requires { (w : ℕ) → w < length words.old → F.pre f w (get_or words.old w 0) }
    ensures { (h : ℕ → Bool) → GivesValues words.old (F.post f) h → words.new ≡ words_of (length words.old) h }
{
    for (i, word) in words.iter_mut().enumerate() {
        *word = f(i, *word);
    }
}

// The sum.
pub fn add_into(d: &mut [u64], s: &[u64])
    requires { length d.old ≡ length s.now }
    ensures { d.new ≡ words_of (length d.old) (λ p. bit_at d.old p ⊕ bit_at s.now p) }
{
    put_each(d, |i, word| word ^ s[i]);
}

// The product.
pub fn multiply_into(d: &mut [u64], s: &[u64])
    requires { length d.old ≡ length s.now }
    ensures { d.new ≡ words_of (length d.old) (λ p. bit_at d.old p && bit_at s.now p) }
{
    put_each(d, |i, word| word & s[i]);
}

// The complement.
pub fn complement(d: &mut [u64])
    ensures { d.new ≡ words_of (length d.old) (λ p. bit_at d.old p ⊕ true) }
{
    put_each(d, |_, word| word ^ 0xffff_ffff_ffff_ffff);
}

// The sum with letter x.
pub fn add_letter(d: &mut [u64], x: usize)
    requires { x < 10 }
    ensures { d.new ≡ words_of (length d.old) (λ p. bit_at d.old p ⊕ bit p x) }
{
    put_each(d, |i, word| word ^ letter_word(x, i));
}

// The two halves of each pair of blocks change places: the points that the mask has, and those `width` before them.
fn exchange(word: u64, mask: u64, width: usize) -> u64
    requires { width < 64 }
    ensures { result ≡ bit_or (bit_and word mask / 2 ^ width) (bit_and (word * 2 ^ width % 2 ^ 64) mask) }
{
    ((word & mask) >> width) | ((word << width) & mask)
}

// f with a letter below six turned over, in one word.
fn turn_word(f: u64, x: usize) -> u64
    requires { x < 6 }
    ensures { result ≡ word_of (λ i. bit f (turned x i)) }
{
    exchange(f, low_letter(x), tables::pow2(x))
}

// f with a letter below six turned over.
fn turn_low(f: &[u64], x: usize, out: &mut [u64])
    requires { (x < 6) × (length f.now ≡ length out.old) }
    ensures { out.new ≡ words_of (length out.old) (λ p. bit_at f.now (turned x p)) }
{
    let mask = low_letter(x);
    let width = tables::pow2(x);
    put_each(out, |i, _| exchange(f[i], mask, width));
}

// The same in place. `turn_low` stands beside it, since a turn in place behind a copy took elimination a tenth longer.
fn turn_in(words: &mut [u64], x: usize)
    requires { x < 6 }
    ensures { words.new ≡ words_of (length words.old) (λ p. bit_at words.old (turned x p)) }
{
    let mask = low_letter(x);
    let width = tables::pow2(x);
    put_each(words, |_, word| exchange(word, mask, width));
}

// f with letters beyond six flipped, letter 6 + j for each bit j of `high`: whole words change places.
fn flip_high(f: &[u64], high: usize, c: usize, out: &mut [u64])
    requires { (high < 2 ^ c) × (length f.now ≡ 2 ^ c) × (length out.old ≡ 2 ^ c) }
    ensures { out.new ≡ words_of (2 ^ c) (λ p. bit_at f.now (flipped (6 + c) (high * 64) p)) }
{
    put_each(out, |i, _| f[i ^ high]);
}

// f with letter x turned over.
pub fn turn(f: &[u64], x: usize, c: usize, out: &mut [u64])
    requires { (x < 6 + c) × (c ≤ 4) × (length f.now ≡ 2 ^ c) × (length out.old ≡ 2 ^ c) }
    ensures { out.new ≡ words_of (2 ^ c) (λ p. bit_at f.now (turned x p)) }
{
    if x < 6 {
        turn_low(f, x, out);
    } else {
        flip_high(f, tables::pow2(x - 6), c, out);
    }
}

// f with the letters of the mask s flipped, all at once: those beyond six by words, the others within each word.
pub fn flip(f: &[u64], s: usize, c: usize, out: &mut [u64])
    requires { (s < 2 ^ (6 + c)) × (length f.now ≡ 2 ^ c) × (length out.old ≡ 2 ^ c) }
    ensures { out.new ≡ words_of (2 ^ c) (λ p. bit_at f.now (flipped (6 + c) s p)) }
{
    flip_high(f, s >> 6, c, out);
    // By the letter's number.
    for x in 0..6 {
        if (s >> x) % 2 == 1 {
            turn_in(out, x);
        }
    }
}

// Of two words, point by point the one that b chooses.
pub fn pick(b: u64, clear: u64, set: u64) -> u64
    ensures { result ≡ bit_xor clear (bit_and b (bit_xor clear set)) }
{
    clear ^ (b & (clear ^ set))
}

// f with what `a` makes of a word's number put for letter x.
fn replace_by<A: Fn(usize) -> u64>(f: &[u64], x: usize, a: A, c: usize, out: &mut [u64])
    requires sizes { (x < 6 + c) × (c ≤ 4) × (length f.now ≡ 2 ^ c) × (length out.old ≡ 2 ^ c) }
    requires callable { (w : ℕ) → w < 2 ^ c → A.pre a w }
    ensures { (h : ℕ → Bool) → ((w v i : ℕ) → A.post a w v → w < 2 ^ c → i < 64 → bit v i ≡ h (64 * w + i))
        → out.new ≡ words_of (2 ^ c) (λ p. bit_at f.now (assign p x (h p))) }
{
    turn(f, x, c, out);
    put_each(
        out,
        |i, turned| pick(letter_word(x, i) ^ a(i), f[i], turned),
    );
}

// f with letter x set to a value.
pub fn restrict(f: &[u64], x: usize, value: bool, c: usize, out: &mut [u64])
    requires { (x < 6 + c) × (c ≤ 4) × (length f.now ≡ 2 ^ c) × (length out.old ≡ 2 ^ c) }
    ensures { out.new ≡ words_of (2 ^ c) (λ p. bit_at f.now (assign p x value)) }
{
    let set = constant_word(value);
    replace_by(f, x, |_| set, c, out);
}

// A letter below six set to 0, in place, in any number of words.
pub fn put_zero(words: &mut [u64], x: usize)
    requires { x < 6 }
    ensures { words.new ≡ words_of (length words.old) (λ p. bit_at words.old (assign p x false)) }
{
    let mask = low_letter(x);
    let width = tables::pow2(x);
    put_each(
        words,
        |_, word| (word ^ (word & mask)) ^ ((word << width) & mask),
    );
}

// The product of the two cases of letter x.
pub fn both_cases(f: &[u64], x: usize, c: usize, out: &mut [u64])
    requires { (x < 6 + c) × (c ≤ 4) × (length f.now ≡ 2 ^ c) × (length out.old ≡ 2 ^ c) }
    ensures { out.new
        ≡ words_of (2 ^ c) (λ p. bit_at f.now (assign p x true) && bit_at f.now (assign p x false)) }
{
    turn(f, x, c, out);
    multiply_into(out, f);
}

// The same of a letter below six, in one word. This and `replace_word` stand beside those of many words since elimination in one word by a
// loop over words takes three to five times as long.
pub fn both_word(f: u64, x: usize) -> u64
    requires { x < 6 }
    ensures { result ≡ word_of (λ i. bit f (assign i x true) && bit f (assign i x false)) }
{
    turn_word(f, x) & f
}

// f with the values a put for letter x.
pub fn replace(f: &[u64], x: usize, a: &[u64], c: usize, out: &mut [u64])
    requires { (x < 6 + c) × (c ≤ 4) × (length f.now ≡ 2 ^ c) × (length a.now ≡ 2 ^ c) × (length out.old ≡ 2 ^ c) }
    ensures { out.new ≡ words_of (2 ^ c) (λ p. bit_at f.now (assign p x (bit_at a.now p))) }
{
    replace_by(f, x, |i| a[i], c, out);
}

// The same of a letter below six, in one word.
pub fn replace_word(f: u64, x: usize, a: u64) -> u64
    requires { x < 6 }
    ensures { result ≡ word_of (λ i. bit f (assign i x (bit a i))) }
{
    pick(a ^ low_letter(x), f, turn_word(f, x))
}

// The same in place. The scratch words live here.
pub fn replace_in(a: &mut [u64], x: usize, slot: &[u64], c: usize)
    requires { (x < 6 + c) × (c ≤ 4) × (length a.old ≡ 2 ^ c) × (length slot.now ≡ 2 ^ c) }
    ensures { a.new ≡ words_of (2 ^ c) (λ p. bit_at a.old (assign p x (bit_at slot.now p))) }
{
    let k = tables::pow2(c);
    let mut room = [0u64; 16];
    let old = &mut room[..k];
    copy(old, a);
    replace(old, x, slot, c, a);
}

// Löwenheim's formula at every point: x + f*(x + b).
pub fn mix(f: &[u64], x: usize, b: &[u64], out: &mut [u64])
    requires { (x < 10) × (length f.now ≡ length out.old) × (length b.now ≡ length out.old) }
    ensures { out.new
        ≡ words_of (length out.old) (λ p. bit p x ⊕ (bit_at f.now p && (bit p x ⊕ bit_at b.now p))) }
{
    put_each(out, |i, _| pick(f[i], letter_word(x, i), b[i]));
}

// The first point with the value 1, the number of points if there is none.
pub fn first_one(words: &[u64]) -> usize
    requires { length words.now ≤ 16 }
    ensures { First (64 * length words.now) (bit_at words.now) result }
{
    match words.iter().position(|word| *word != 0) {
        Some(i) => 64 * i + u64::trailing_zeros(words[i]) as usize,
        None => 64 * words.len(),
    }
}
