// The shorter of two answer tables, Boole's and Löwenheim's, by the monomials in them, and as the lent table itself.
// Public calls, none with a `requires`: `shorter_refusal`, `which_shorter`, `shorter`. The other functions are theirs alone.
// They ask the questions first; only bytes that have passed question 8 are counted, so that a sum of bytes is a count.

#![tactic(auto)]

ghost use Rattle.std.specs.Prelude.{◌≡◌, cond, [], ◌≤◌, length, MatchResult};
ghost use Rattle.ring.specs.Polynomial.{count};
ghost use Rattle.ring.specs.Table.{AreBits, present};
ghost use Rattle.tables.specs.Answered.{answered};
ghost use Rattle.tables.specs.Inner.Passed.{IsFirstNo};
ghost use Rattle.calls.specs.Questions.{shorter_questions};
ghost use Rattle.calls.specs.Shorter.{shorter_refusal, takes_lowenheim, shorter_part, shorter_said, which_shorter_call};
ghost use Rattle.shorter.specs.Inner.Passed.{PassedShorter, IsShorter};

use calls::Formula;
use tables::{Letters, Question};

// How many bytes are 1, of so few that the counter is a byte too: then the loop is one of whole vectors.
fn count_few(t: &[u8]) -> usize
    requires { (length t.now ≤ 128) × AreBits t.now }
    ensures { result ≡ count (length t.now) (present t.now) }
{
    let mut few = 0u8;
    for &byte in t {
        few += byte;
    }
    usize::from(few)
}

// How many bytes are 1.
fn count_present(t: &[u8]) -> usize
    requires { AreBits t.now }
    ensures { result ≡ count (length t.now) (present t.now) }
{
    let mut found = 0;
    for block in t.chunks(128) {
        found += count_few(block);
    }
    found
}

// The parts that count of two lent answer tables that have passed the questions: a table in n letters for each unknown.
#[derive(Clone, Copy)]
struct Parts<'a> {
    boole: &'a [u8],
    lowenheim: &'a [u8],
    ghost boole_bits: { AreBits boole.now },
    ghost lowenheim_bits: { AreBits lowenheim.now },
}

impl<'a> Parts<'a> {
    // The questions of the two tables, and what counts of them.
    #[tactic(auto, unfolding(calls::specs::Questions::shorter_questions, tables::specs::Questions::buffer_questions, tables::specs::Questions::room_questions, tables::specs::Questions::bit_questions, tables::specs::Questions::first_no, tables::specs::Questions::has_room))]
    fn new(u: usize, g: usize, boole: &'a [u8], lowenheim: &'a [u8]) -> Result<Self, Question>
        ensures { MatchResult result
            (λ p. PassedShorter u g boole.now lowenheim.now p.boole.now p.lowenheim.now
            × (p.boole.ref_ptr ≡ boole.entry.ref_ptr) × (p.lowenheim.ref_ptr ≡ lowenheim.entry.ref_ptr))
            (IsFirstNo (shorter_questions u g boole.now lowenheim.now)) }
    {
        let letters = Letters::new(u, g)?;
        let all = letters.unknowns * letters.table_len;
        tables::require(Question::Room, tables::has_room(all, boole.len()))?;
        tables::require(Question::Room, tables::has_room(all, lowenheim.len()))?;
        tables::require(Question::Bits, tables::holds_bits(all, boole))?;
        tables::require(Question::Bits, tables::holds_bits(all, lowenheim))?;
        Ok(Parts {
            boole: &boole[..all],
            lowenheim: &lowenheim[..all],
        })
    }

    // Which is the shorter, Boole's if the totals tie.
    fn shorter(self) -> Formula
        ensures { IsShorter self.entry.boole.now self.entry.lowenheim.now result }
    {
        if count_present(self.lowenheim) < count_present(self.boole) {
            Formula::Lowenheim
        } else {
            Formula::Boole
        }
    }
}

// The first no, or 0: a number, since callers outside the language ask for it as one (`layodegi_shorter_refusal`).
pub fn shorter_refusal(u: usize, g: usize, boole: &[u8], lowenheim: &[u8]) -> u8
    ensures { result ≡ shorter_refusal u g boole.now lowenheim.now }
{
    match Parts::new(u, g, boole, lowenheim) {
        Ok(_) => 0,
        Err(question) => tables::number(question),
    }
}

// Which of the two is the shorter, Boole's if the totals tie.
pub fn which_shorter(
    u: usize,
    g: usize,
    boole: &[u8],
    lowenheim: &[u8],
) -> Result<Formula, Question>
    ensures { answered (shorter_said result) [] ≡ which_shorter_call u g boole.now lowenheim.now }
{
    let parts = Parts::new(u, g, boole, lowenheim)?;
    Ok(parts.shorter())
}

// The shorter of the two, a part of the lent table itself; no bytes where a question is answered no.
pub fn shorter<'a>(u: usize, g: usize, boole: &'a [u8], lowenheim: &'a [u8]) -> &'a [u8]
    ensures contents { result.now ≡ shorter_part u g boole.now lowenheim.now }
    ensures place { result.ref_ptr
        ≡ cond (takes_lowenheim u g boole.now lowenheim.now) lowenheim.entry.ref_ptr boole.entry.ref_ptr }
{
    let Ok(parts) = Parts::new(u, g, boole, lowenheim) else {
        return &boole[..0];
    };
    match parts.shorter() {
        Formula::Boole => parts.boole,
        Formula::Lowenheim => parts.lowenheim,
    }
}
