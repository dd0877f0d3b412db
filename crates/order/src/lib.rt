// The written order of monomials: fewer letters first and, among equals, the smaller mask.
// It stands in a constant table, `masks::ORDER`. A constant is laid out anew wherever it is read, so up to six letters have a
// table of their own, `masks_six::ORDER_SIX`, which is a sixteenth as long. Callers take the order from there by `fill_order`
// and list a table's monomials by `list_monomials`; `rank_of` puts two masks in order, by the table that `letter_counts` gives.
// Nothing here is a public call of the library: what these functions require, callers within it meet.

#![tactic(auto)]

mod masks;
mod masks_six;

ghost use Rattle.std.specs.Prelude.{◌≡◌, ℕ, Bool, ◌++◌, ◌+◌, ◌-◌, ◌^◌, ◌≤◌, ◌<◌, length, get_or, drop};
ghost use Rattle.words.specs.Inner.Words.{bit_at};
ghost use Rattle.order.specs.Order.{letters, keep, order, monomials};
ghost use Rattle.order.specs.Inner.Place.{AreStarts, AreLetters, rank};
ghost use Rattle.order.specs.Inner.Listing.{tagged, Listed, Tells};

use masks::ORDER;
use masks_six::ORDER_SIX;

// Where in it the masks that have so many letters begin; behind the last, its end.
const STARTS: [u16; 12] = [0, 1, 11, 56, 176, 386, 638, 848, 968, 1013, 1023, 1024];

// The same in the table for six letters.
const STARTS_SIX: [u16; 8] = [0, 1, 7, 22, 42, 57, 63, 64];

// The place, out of such a table, at which the masks that have a letter more than m begin.
fn next_start(starts: &[u16], m: usize) -> usize
    requires { (m < 1024) × (letters m + 1 < length starts.now) }
    ensures { result ≡ get_or starts.now (letters m + 1) 0 }
{
    let counts = letter_counts();
    usize::from(starts[count_letters(&counts, m) + 1])
}

// The library's method, behind one equation, which the proofs of the two lists cite.
fn copy_order(masks: &[u16; 1024], out: &mut [u16])
    requires { (masks.now ≡ order 10) × (1024 ≤ length out.old) }
    ensures { out.new ≡ order 10 ++ drop 1024 out.old }
{
    out[..1024].copy_from_slice(masks);
}

// 'Smaller n skips the masks that are too large': from the first of these on, all that have as many letters are, so that few letters
// come to few places. The table is that of o letters, six or ten: few letters have their own, so that they need not lay out all 1,024
// masks. The two places move on their own, and one jumps: no iterator counts both.
fn skip_large(n: usize, o: usize, masks: &[u16], starts: &[u16], out: &mut [u16])
    requires { (n ≤ o) × (o ≤ 10) × (masks.now ≡ order o) × AreStarts o starts.now × (2 ^ n ≤ length out.old) }
    ensures { out.new ≡ order n ++ drop (2 ^ n) out.old }
{
    let size = tables::pow2(n);
    let mut at = 0;
    let mut p = 0;
    while at < size {
        let m = usize::from(masks[p]);
        if m < size {
            out[at] = m as u16;
            at += 1;
            p += 1;
        } else {
            p = next_start(starts, m);
        }
    }
}

// The masks for n letters, in written order, at the front of a buffer. A table is read only in the branch that needs it.
pub fn fill_order(n: usize, out: &mut [u16])
    requires { (n ≤ 10) × (2 ^ n ≤ length out.old) }
    ensures { out.new ≡ order n ++ drop (2 ^ n) out.old }
{
    if n <= 6 {
        let masks = ORDER_SIX;
        let starts = STARTS_SIX;
        skip_large(n, 6, &masks, &starts, out);
        return;
    }
    let masks = ORDER;
    if n == 10 {
        copy_order(&masks, out);
        return;
    }
    let starts = STARTS;
    skip_large(n, 10, &masks, &starts, out);
}

// The monomials of the coefficients in `words`, in written order, each with `tag` added, from the place `from` of the buffer on.
// The buffer is changed behind them too, as far as all masks would go: which monomials a table has cannot be foretold, so that
// nothing branches on it.
pub fn list_monomials(
    n: usize,
    tag: usize,
    words: &[u64],
    masks: &[u16],
    out: &mut [u16],
    from: usize,
) -> usize
    requires { (n ≤ 10) × (tag + 1024 ≤ 65536) × (length words.now ≡ 2 ^ (n - 6)) × (masks.now ≡ order n)
        × (from + 2 ^ n ≤ length out.old) }
    ensures { Listed out.old from (tagged tag (monomials n (bit_at words.now))) result out.new }
{
    if n <= 6 {
        // one word stays in a register: none is looked up for each mask
        let word = words[0];
        return list_where(tag, masks, out, from, |m| (word >> m) & 1 == 1);
    }
    list_where(tag, masks, out, from, |m| words::value_at(words, m))
}

// The masks at which `has` answers yes, as `list_monomials` lists them.
fn list_where<F: Fn(usize) -> bool>(
    tag: usize,
    masks: &[u16],
    out: &mut [u16],
    from: usize,
    has: F,
) -> usize
    requires room { (tag + 1024 ≤ 65536) × (from + length masks.now ≤ length out.old) }
    requires few { (p : ℕ) → p < length masks.now → get_or masks.now p 0 < 1024 }
    requires askable { (p : ℕ) → p < length masks.now → F.pre has (get_or masks.now p 0) }
    ensures { (f : ℕ → Bool) → Tells masks.now (F.post has) f → Listed out.old from (tagged tag (keep f masks.now)) result out.new }
{
    let mut at = from;
    for &mask in masks {
        let m = usize::from(mask);
        out[at] = (tag + m) as u16;
        at += usize::from(has(m));
    }
    at
}

// How many letters each mask below 32 has.
const LETTERS: [u8; 32] = [
    0, 1, 1, 2, 1, 2, 2, 3, 1, 2, 2, 3, 2, 3, 3, 4, 1, 2, 2, 3, 2, 3, 3, 4, 2, 3, 3, 4, 3, 4, 4, 5,
];

// The table for callers, who copy it once and lend it on.
pub fn letter_counts() -> [u8; 32]
    ensures { AreLetters result }
{
    LETTERS
}

// How many letters a mask has: among the first five, and among the last five.
fn count_letters(counts: &[u8; 32], m: usize) -> usize
    requires { (AreLetters counts.now) × (m < 1024) }
    ensures { (result ≡ letters m) × (result ≤ 10) }
{
    usize::from(counts[m % 32]) + usize::from(counts[m / 32])
}

// The written order in one number: a mask stands before another where its rank is the smaller.
pub fn rank_of(counts: &[u8; 32], m: usize) -> usize
    requires { (AreLetters counts.now) × (m < 1024) }
    ensures { result ≡ rank 10 m }
{
    count_letters(counts, m) * 1024 + m
}
