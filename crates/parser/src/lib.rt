// The readers of the notation: a text's bytes are decoded to symbols, and `sum`, `product` and `factor` call each other as the grammar does.
// They go through a text once for all points: each writes its truth values, 64 points to a word, to the front of a lent stack of words, a
// block of k words to a tree, and uses what lies behind it for the trees inside. Each is held to the grammar's executable form
// (`grammar/specs/Reader.antt`). Nothing here is a public call of the library: `notation` has it.

#![tactic(auto)]

ghost use Rattle.std.specs.Prelude.{◌≡◌, ℕ, ◌+◌, ◌-◌, ◌*◌, ◌≤◌, ◌<◌, length, take, get_or};
ghost use Rattle.ring.specs.Letters.{bit};
ghost use Rattle.ring.specs.Lists.{listed};
ghost use Rattle.tables.proofs.Filled.{filled};
ghost use Rattle.grammar.specs.Symbols.{symbol, symbols, every};
ghost use Rattle.grammar.specs.Reader as reader;
ghost use Rattle.grammar.specs.Reader.{reads, joins_sum, is_whole};
ghost use Rattle.parser.specs.Inner.Codes.{code, meant, codes, meanings};
ghost use Rattle.parser.specs.Inner.Questions.{unspaced, is_known, is_letter_declared};
ghost use Rattle.parser.specs.Inner.Blocks.{word_at, letter_of, sum_of, paired, Makes, Agrees, whole_words};

// A symbol's code: unknown j is j, given i is GIVEN + i, every other sign is its own byte.
const GIVEN: u8 = 8;

const FOREIGN: u8 = 255;

const ONES: u64 = 0xffff_ffff_ffff_ffff;

// 'Decoding goes by byte ranges: u to z, a to h, then the single signs.'
fn decode(byte: u8) -> u8
    ensures { result ≡ code (symbol byte) }
{
    match byte {
        b'u'..=b'z' => byte - b'u',
        b'a'..=b'h' => GIVEN + (byte - b'a'),
        b'0' | b'1' | b'!' | b'(' | b')' | b'*' | b'+' | b'|' => byte,
        _ => FOREIGN,
    }
}

// The bytes of a text without its spaces, at the front of `out`; returns how many there are. Every byte is stored, and one that is a
// space is written over: no branch hangs on it.
fn drop_spaces(text: &[u8], out: &mut [u8]) -> usize
    requires { length text.now ≤ length out.old }
    ensures { (result ≤ length out.new) × (take result out.new ≡ unspaced text.now) }
{
    let mut n = 0;
    for &byte in text {
        out[n] = byte;
        if byte != b' ' {
            n += 1;
        }
    }
    n
}

// The code of each byte's symbol in its place.
fn decode_all(s: &mut [u8])
    ensures { s.new ≡ listed (length s.old) (λ i. code (symbol (get_or s.old i 0))) }
{
    for byte in s.iter_mut() {
        *byte = decode(*byte);
    }
}

// The codes of a text's symbols, at the front of `out`; returns how many there are.
pub fn write_symbols(text: &[u8], out: &mut [u8]) -> usize
    requires { length text.now ≤ length out.old }
    ensures { (result ≤ length out.new) × (take result out.new ≡ codes (symbols text.now)) }
{
    let n = drop_spaces(text, out);
    decode_all(&mut out[..n]);
    n
}

// Question 5, of the codes of a text's symbols. No answer ends the fold, so that the codes are tested side by side.
pub fn all_signs(s: &[u8]) -> bool
    ensures { result ≡ every is_known s.now }
{
    s.iter().fold(true, |all, &c| all & (c != FOREIGN))
}

// Is a symbol declared, if it is a letter? Codes below 8 are unknowns, those from 8 to 15 givens.
fn is_declared(u: u8, g: u8, c: u8) -> bool
    ensures { result ≡ is_letter_declared u g c }
{
    match c {
        0..=7 => c < u,
        8..=15 => c - 8 < g,
        _ => true,
    }
}

// Question 6, of the codes of a text's symbols.
pub fn all_declared(u: u8, g: u8, s: &[u8]) -> bool
    ensures { result ≡ every (is_letter_declared u g) s.now }
{
    s.iter().fold(true, |all, &c| all & is_declared(u, g, c))
}

fn joins_sum(c: u8) -> bool
    ensures { result ≡ joins_sum (meant c) }
{
    c == b'+' || c == b'|'
}

// A letter from 6 on at the points of word w, which are 64 * w and those after it.
fn high_letter(j: usize, w: usize) -> u64
    requires { (6 ≤ j) × (j < 64) }
    ensures { result ≡ word_at (λ p. bit p j) w }
{
    if (w >> (j - 6)) % 2 == 1 { ONES } else { 0 }
}

// Puts in the place of each of the first k words what f makes of its number and of it.
fn put_each<F: Fn(usize, u64) -> u64>(stack: &mut [u64], k: usize, f: F)
    requires room { k ≤ length stack.old }
    requires askable { (i : ℕ) → i < k → F.pre f i (get_or stack.old i 0) }
    ensures { (h : ℕ → ℕ) → Makes k stack.old (F.post f) h → stack.new ≡ filled k h stack.old }
{
    let words = &mut stack[..k];
    for (i, word) in words.iter_mut().enumerate() {
        *word = f(i, *word);
    }
}

// The same. Ten letters have 16 words, eight have 4, six and fewer have 1: a loop whose end is known is one run of wide operations.
fn put_block<F: Fn(usize, u64) -> u64>(stack: &mut [u64], k: usize, f: F)
    requires room { k ≤ length stack.old }
    requires askable { (i : ℕ) → i < k → F.pre f i (get_or stack.old i 0) }
    ensures { (h : ℕ → ℕ) → Makes k stack.old (F.post f) h → stack.new ≡ filled k h stack.old }
{
    match k {
        16 => put_each(stack, 16, f),
        4 => put_each(stack, 4, f),
        1 => put_each(stack, 1, f),
        _ => put_each(stack, k, f),
    }
}

// The second block joined to the first.
fn join_each<F: Fn(u64, u64) -> u64>(stack: &mut [u64], k: usize, op: F)
    requires room { k + k ≤ length stack.old }
    requires askable { F.IsAlwaysCallable op }
    ensures { (g : ℕ → ℕ → ℕ) → ((a b v : ℕ) → F.post op a b v → v ≡ g a b) → stack.new ≡ filled k (paired g k stack.old) stack.old }
{
    let (first, second) = stack.split_at_mut(k);
    let second: &[u64] = second;
    put_each(first, k, |i, word| op(word, second[i]));
}

// The same, again by widths. `put_block` cannot stand for it: blocks that are split before the width is known are not known to lie apart,
// and reading 16 words then takes 1.2 of the time.
fn join<F: Fn(u64, u64) -> u64>(stack: &mut [u64], k: usize, op: F)
    requires room { k + k ≤ length stack.old }
    requires askable { F.IsAlwaysCallable op }
    ensures { (g : ℕ → ℕ → ℕ) → ((a b v : ℕ) → F.post op a b v → v ≡ g a b) → stack.new ≡ filled k (paired g k stack.old) stack.old }
{
    match k {
        16 => join_each(stack, 16, op),
        4 => join_each(stack, 4, op),
        1 => join_each(stack, 1, op),
        _ => join_each(stack, k, op),
    }
}

// The same for a sign of sums.
fn join_sum(stack: &mut [u64], k: usize, sign: u8)
    requires { k + k ≤ length stack.old }
    ensures { stack.new ≡ filled k (paired (sum_of sign) k stack.old) stack.old }
{
    if sign == b'|' {
        join(stack, k, |a, b| a | b);
    } else {
        join(stack, k, |a, b| a ^ b);
    }
}

// A block of letter j's words.
fn put_letter(stack: &mut [u64], k: usize, j: usize)
    requires { (k ≤ length stack.old) × (j < 64) }
    ensures { stack.new ≡ filled k (word_at (λ p. bit p j)) stack.old }
{
    if j < 6 {
        let low = words::low_letter(j);
        put_block(stack, k, |_, _| low);
    } else {
        put_block(stack, k, |i, _| high_letter(j, i));
    }
}

// The number of the letter that a code stands for.
fn letter_of(u: usize, c: u8) -> usize
    requires { (u ≤ 6) × (c < 16) }
    ensures { (result ≡ letter_of u c) × (result < 64) }
{
    let code = usize::from(c);
    if code < 8 { code } else { u + (code - 8) }
}

// A block of the words of a code's letter. Unknowns and givens share it, so that no branch hangs on which of them it is.
fn put_symbol(stack: &mut [u64], k: usize, u: usize, c: u8)
    requires { (k ≤ length stack.old) × (u ≤ 6) × (c < 16) }
    ensures { stack.new ≡ filled k (word_at (λ p. bit p (letter_of u c))) stack.old }
{
    put_letter(stack, k, letter_of(u, c));
}

// The grammar's rule: products, as long as a sign joins a further one.
#[cycle(factor_product_sum)]
fn sum(s: &[u8], at: usize, u: usize, k: usize, stack: &mut [u64]) -> Option<usize>
    requires { (at ≤ length s.now) × (u ≤ 6) × (k ≤ 16) × (8 * (length s.now - at) + 8 ≤ length stack.old) }
    ensures { Agrees reader.Reader.sum u k s.now at (length stack.old) stack.new result }
{
    let mut n = product(s, at, u, k, stack)?;
    while n < s.len() && joins_sum(s[n]) {
        let next = product(s, n + 1, u, k, &mut stack[k..])?;
        join_sum(stack, k, s[n]);
        n = next;
    }
    Some(n)
}

// The grammar's rule: factors, as long as a sign joins a further one. Inlined into `sum`, since a call for each product would take a tenth of the reading.
#[cycle(factor_product_sum)]
#[inline(always)]
fn product(s: &[u8], at: usize, u: usize, k: usize, stack: &mut [u64]) -> Option<usize>
    requires { (at ≤ length s.now) × (u ≤ 6) × (k ≤ 16) × (8 * (length s.now - at) + 8 ≤ length stack.old) }
    ensures { Agrees reader.Reader.product u k s.now at (length stack.old) stack.new result }
{
    let mut n = factor(s, at, u, k, stack)?;
    while n < s.len() && s[n] == b'*' {
        n = factor(s, n + 1, u, k, &mut stack[k..])?;
        join(stack, k, |a, b| a & b);
    }
    Some(n)
}

// The grammar's rule: a digit, a letter, an inverted factor, or a sum in brackets.
#[cycle(factor_product_sum)]
fn factor(s: &[u8], at: usize, u: usize, k: usize, stack: &mut [u64]) -> Option<usize>
    requires { (at ≤ length s.now) × (u ≤ 6) × (k ≤ 16) × (8 * (length s.now - at) + 8 ≤ length stack.old) }
    ensures { Agrees reader.Reader.factor u k s.now at (length stack.old) stack.new result }
{
    let c = *s.get(at)?;
    let next = at + 1;
    match c {
        b'0' => {
            put_block(stack, k, |_, _| 0);
            Some(next)
        }
        b'1' => {
            put_block(stack, k, |_, _| ONES);
            Some(next)
        }
        b'!' => {
            let n = factor(s, next, u, k, stack)?;
            put_block(stack, k, |_, word| word ^ ONES);
            Some(n)
        }
        b'(' => {
            let n = sum(s, next, u, k, stack)?;
            if *s.get(n)? == b')' {
                Some(n + 1)
            } else {
                None
            }
        }
        // an unknown, a given
        0..=5 | 8..=15 => {
            put_symbol(stack, k, u, c);
            Some(next)
        }
        _ => None,
    }
}

// Question 7 of a text's symbols and, where the answer is yes, the values at the points of the words.
fn read_with(s: &[u8], u: usize, words: &mut [u64], stack: &mut [u64]) -> bool
    requires { (u ≤ 6) × (length words.old ≤ 16) × (8 * length s.now + 8 ≤ length stack.old) }
    ensures value { result ≡ is_whole (reads reader.Reader.sum (meanings s.now)) }
    ensures words_after { words.new ≡ whole_words u (reads reader.Reader.sum (meanings s.now)) words.old }
{
    let k = words.len();
    let whole = sum(s, 0, u, k, stack) == Some(s.len());
    if whole {
        words::copy(words, &stack[..k]);
    }
    whole
}

// The same on a stack of N words, which lives here.
fn read_on<const N: usize>(s: &[u8], u: usize, words: &mut [u64]) -> bool
    requires { (u ≤ 6) × (length words.old ≤ 16) × (8 * length s.now + 8 ≤ N) × (N ≤ 2048) }
    ensures value { result ≡ is_whole (reads reader.Reader.sum (meanings s.now)) }
    ensures words_after { words.new ≡ whole_words u (reads reader.Reader.sum (meanings s.now)) words.old }
{
    let mut stack = [0u64; N];
    read_with(s, u, words, &mut stack)
}

// Question 7 of a text's symbols and, where the answer is yes, the values of its tree in `words`, 64 points to a word. A short text needs
// a small stack.
pub fn read_values(s: &[u8], u: usize, words: &mut [u64]) -> bool
    requires { (length s.now ≤ 200) × (u ≤ 6) × (length words.old ≤ 16) }
    ensures value { result ≡ is_whole (reads reader.Reader.sum (meanings s.now)) }
    ensures words_after { words.new ≡ whole_words u (reads reader.Reader.sum (meanings s.now)) words.old }
{
    if s.len() < 64 {
        read_on::<512>(s, u, words)
    } else {
        read_on::<1608>(s, u, words)
    }
}
