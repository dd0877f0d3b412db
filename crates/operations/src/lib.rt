// The calls on tables: the value of a table, the sum and the product of two, handed polynomials put into a condition, and the derivative.
// Public calls, none with a `requires`: `value`, `sum`, `product`, `substitute`, `derivative`. The other functions are theirs alone.
// They ask the questions and lend the tables that have passed them; the work is `polynomials`'. Their contracts cite the polynomials' own
// definitions. The first question that is answered no is the error. The calls look alike, and stay: each has its own questions and its own
// contract, and one function for them would take both as closures.

#![tactic(auto)]

ghost use Rattle.std.specs.Prelude.{◌≡◌, ◌&&◌, [], ◌∷◌, ◌+◌, ◌%◌, ◌*◌, ◌^◌, ◌≤◌, eqb, length};
ghost use Rattle.ring.specs.Letters.{digit};
ghost use Rattle.ring.specs.Polynomial.{odd, value, within};
ghost use Rattle.ring.specs.Table.{present};
ghost use Rattle.tables.specs.Answered.{answered};
ghost use Rattle.calls.specs.Counted.{value_said};
ghost use Rattle.calls.specs.Operations.{outcome, value_call, sum_call, product_call, substitute_call, derivative_call};

mod questions;

use ring::{Choice, State};
use tables::Question;

// Monomial m is present, by its byte, and its letters are all 1 at the point p.
fn counts(byte: u8, m: u8, p: u8) -> bool
    ensures { result ≡ (eqb byte 1 && within m p) }
{
    (byte == 1) & ((m & p) == m)
}

// The parity of the monomials that count, in six letters or fewer. Masks are bytes, so that the loop is one of whole vectors.
fn odd_below(t: &[u8], p: u8) -> bool
    requires { length t.now ≤ 64 }
    ensures { result ≡ odd (length t.now) (λ m. present t.now m && within m p) }
{
    let mut odd = false;
    for (m, &byte) in t.iter().enumerate() {
        odd ^= counts(byte, m as u8, p);
    }
    odd
}

// The same in more letters, a block of 64 masks at a time: all have the same further letters.
fn odd_in_blocks(t: &[u8], p: usize) -> bool
    requires { length t.now % 64 ≡ 0 }
    ensures { result ≡ odd (length t.now) (λ m. present t.now m && within m p) }
{
    let low = (p & 63) as u8;
    let high = p >> 6;
    let mut odd = false;
    for (w, block) in t.chunks_exact(64).enumerate() {
        odd ^= odd_below(block, low) & ((w & high) == w);
    }
    odd
}

// The parity of the monomials that count.
fn value_of(t: &[u8], n: usize, p: usize) -> u8
    requires { length t.now ≡ 2 ^ n }
    ensures { result ≡ digit (value n (present t.now) p) }
{
    if n < 6 {
        return u8::from(odd_below(t, (p & 63) as u8));
    }
    u8::from(odd_in_blocks(t, p))
}

// The value of a table at a state and a choice.
pub fn value(u: usize, g: usize, t: &[u8], state: State, choice: Choice) -> Result<u8, Question>
    ensures { answered (value_said result) [] ≡ value_call u g t.now state choice }
{
    let letters = questions::of_value(u, g, t, state, choice)?;
    let k = letters.table_len;
    let p = state.0 * tables::pow2(u) + choice.0;
    Ok(value_of(&t[..k], letters.n, p))
}

// The sum of two tables, into a third, and the number of its monomials.
pub fn sum(u: usize, g: usize, a: &[u8], b: &[u8], out: &mut [u8]) -> Result<usize, Question>
    ensures { answered (value_said result) (out.new ∷ []) ≡ sum_call u g a.now b.now out.old }
{
    let letters = questions::of_pair(u, g, a, b, out.len())?;
    let k = letters.table_len;
    Ok(polynomials::add(letters.n, &a[..k], &b[..k], &mut out[..k]))
}

// The product of two tables, into a third, and the number of its monomials.
pub fn product(u: usize, g: usize, a: &[u8], b: &[u8], out: &mut [u8]) -> Result<usize, Question>
    ensures { answered (value_said result) (out.new ∷ []) ≡ product_call u g a.now b.now out.old }
{
    let letters = questions::of_pair(u, g, a, b, out.len())?;
    let k = letters.table_len;
    Ok(polynomials::multiply(letters.n, &a[..k], &b[..k], &mut out[..k], true))
}

// Handed polynomials put for the unknowns of a condition, all at once, and the number of monomials of what comes out; the givens stay.
pub fn substitute(
    u: usize,
    g: usize,
    condition: &[u8],
    handed: &[u8],
    out: &mut [u8],
) -> Result<usize, Question>
    ensures { answered (value_said result) (out.new ∷ [])
        ≡ substitute_call u g condition.now handed.now out.old }
{
    let letters = questions::of_substitute(u, g, condition, handed, out.len())?;
    let k = letters.table_len;
    let all = letters.unknowns * k;
    Ok(polynomials::substitute(letters, &condition[..k], &handed[..all], &mut out[..k]))
}

// The derivative of a table by the letters of the mask s: the table plus the table with these letters inverted, all at once.
pub fn derivative(u: usize, g: usize, t: &[u8], s: usize, out: &mut [u8]) -> Result<(), Question>
    ensures { answered (outcome result) (out.new ∷ []) ≡ derivative_call u g t.now s out.old }
{
    let letters = questions::of_derivative(u, g, t, s, out.len())?;
    let k = letters.table_len;
    polynomials::derive(letters.n, &t[..k], s, &mut out[..k]);
    Ok(())
}
