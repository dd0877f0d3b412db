// The shared bottom of the calls: the questions and how they are asked, and the sum of lent tables of bytes.
// Nothing here is a public call of the library. The functions with a `requires` are for the crates above, which ask the questions first
// and then lend slices of exactly the length that is needed.

#![tactic(auto)]

ghost use Rattle.std.specs.Prelude.{◌≡◌, true, false, ◌+◌, ◌^◌, ◌≤◌, length, MatchResult};
ghost use Rattle.ring.specs.Polynomial.{sum};
ghost use Rattle.ring.specs.Table.{AreBits, present, tabulate};
ghost use Rattle.tables.specs.Questions.{number, letters_fit, has_room, are_bits, holds_bits};

use std::fmt;

// The questions of documents 01 and 02, in the order of their numbers. What each asks is said below, where it is shown.
#[derive(Clone, Copy, Debug, PartialEq, Eq)]
pub enum Question {
    Letters = 1,
    Route,
    TextLength,
    Room,
    Signs,
    Declared,
    Grammar,
    Bits,
    Solution,
    Records,
    Kinds,
    Numbers,
    Afresh,
    Output,
    Rising,
    Range,
    Order,
    Name,
    Marked,
    Mask,
    Handed,
    FactGivens,
    FactState,
}

impl fmt::Display for Question {
    fn fmt<W: fmt::Write>(&self, f: &mut fmt::Formatter<W>) -> fmt::Result {
        let words = match self {
            Question::Letters => "Are U at most 6, G at most 8, n at most 10?",
            Question::Route => "Is the route 1 to 250?",
            Question::TextLength => "Has the text 1 to 200 bytes?",
            Question::Room =>
                "Has each condition buffer 2^n bytes or more, and each answer or handed buffer U times 2^n or more?",
            Question::Signs => "Is every byte a sign of the notation or a space?",
            Question::Declared => "Is every letter declared?",
            Question::Grammar => "Does the grammar read the whole text?",
            Question::Bits =>
                "Is each byte of a table lent to be read, as far as question 4's length, 0 or 1?",
            Question::Solution => "Has the condition a solution?",
            Question::Records =>
                "Does every record, to the first kind 4, have kind 1 to 7 and a whole body, and is there a kind 4?",
            Question::Kinds => "Are the kinds in the entry's order, both routes equal?",
            Question::Numbers =>
                "Are masks below 2^n, unknowns below U, the state below 2^G, all in order, none twice, no kind 6 for 0, 1, 2, ..?",
            Question::Afresh => "Do the answers, or the state, equal those solved afresh?",
            Question::Output => "Is the output at least as long as what is to be written?",
            Question::Rising => "Is the route above the one before?",
            Question::Range => "Is the state below 2^G and the choice below 2^U?",
            Question::Order => "Does the order hold each unknown once and then only 255?",
            Question::Name => "Is the name a byte `A` to `D`?",
            Question::Marked => "When returning, is it marked?",
            Question::Mask => "Has the set S only declared letters?",
            Question::Handed => "Does the handed substitution make the condition zero?",
            Question::FactGivens => "Has the fact no unknown?",
            Question::FactState => "Is the fact 0 in some state?",
        };
        write!(f, "question {}: {words}", number(*self))
    }
}

// The number of a question: its discriminant.
pub fn number(question: Question) -> u8
    ensures { result ≡ number question }
{
    question as u8
}

// One question is asked: a no ends the call, with the question for its error.
pub fn require(question: Question, answer: bool) -> Result<(), Question>
    ensures { MatchResult result (λ _. answer ≡ true) (λ no. (no ≡ question) × (answer ≡ false)) }
{
    if answer { Ok(()) } else { Err(question) }
}

// The number of points, and of monomials, of n letters.
pub fn pow2(n: usize) -> usize
    requires { n ≤ 10 }
    ensures { result ≡ 2 ^ n }
{
    1 << n
}

// Question 1. The sum is formed only once both are known to be small.
#[tactic(auto, unfolding(crate::specs::Questions::letters_fit))]
pub fn letters_fit(u: usize, g: usize) -> bool
    ensures { result ≡ letters_fit u g }
{
    u <= 6 && g <= 8 && u + g <= 10
}

// U and G, which n letters these are, and the length of a table over them: what functions on tables need of letters that have passed
// question 1. That G is at most 8 they do not, and do not ask.
#[derive(Clone, Copy)]
pub struct Letters {
    pub unknowns: usize,
    pub givens: usize,
    pub n: usize,
    pub table_len: usize,
    pub ghost unknowns_fit: { unknowns ≤ 6 },
    pub ghost n_is: { n ≡ unknowns + givens },
    pub ghost n_fits: { n ≤ 10 },
    pub ghost table_len_is: { table_len ≡ 2 ^ n },
}

impl Letters {
    // Question 1.
    pub fn new(u: usize, g: usize) -> Result<Self, Question>
        ensures { MatchResult result (λ l. (l.unknowns ≡ u) × (l.givens ≡ g) × (letters_fit u g ≡ true))
            (λ q. (q ≡ Question.Letters) × (letters_fit u g ≡ false)) }
    {
        require(Question::Letters, letters_fit(u, g))?;
        let n = u + g;
        Ok(Letters {
            unknowns: u,
            givens: g,
            n,
            table_len: pow2(n),
        })
    }
}

// No early way out, so that the loop is one of whole vectors.
#[tactic(auto, unfolding(crate::specs::Questions::are_bits))]
fn are_bits(s: &[u8]) -> bool
    ensures { result ≡ are_bits s.now }
{
    let mut union = 0u8;
    for &byte in s {
        union |= byte;
    }
    union <= 1
}

// Question 4 of one buffer.
#[tactic(auto, unfolding(crate::specs::Questions::has_room))]
pub fn has_room(k: usize, size: usize) -> bool
    ensures { result ≡ has_room k size }
{
    k <= size
}

// Question 8 of one table, as far as there are bytes.
#[tactic(auto, unfolding(crate::specs::Questions::holds_bits))]
pub fn holds_bits(k: usize, s: &[u8]) -> bool
    ensures { result ≡ holds_bits k s.now }
{
    match s.get(..k) {
        Some(front) => are_bits(front),
        None => are_bits(s),
    }
}

// The sum, byte by byte.
pub fn add_into(d: &mut [u8], s: &[u8])
    requires { (length d.old ≡ length s.now) × AreBits d.old × AreBits s.now }
    ensures { d.new ≡ tabulate (length d.old) (sum (present d.old) (present s.now)) }
{
    for (i, byte) in d.iter_mut().enumerate() {
        *byte ^= s[i];
    }
}
