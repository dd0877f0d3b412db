// The public calls: which questions each puts and what it answers. `specs/` follows document 01; `specs/Questions.antt` has the order of
// questions of every call, and each call's contract is an equation with its `..Call`. The code of a call stands in the crate that its file
// names; here are the types of the answers, so that nothing is converted.

#![tactic(auto)]

ghost use Rattle.std.specs.Prelude.{◌≡◌};

use ring::State;
use tables::Question;

// What is said of a condition: it is solved, or there is no solution and every choice fails in this state. By names and not as a `Result`:
// that there is no solution is what an entry says, and no failure of reading or auditing it.
#[derive(Clone, Copy, Debug, PartialEq, Eq)]
pub enum Verdict {
    Solved,
    None(State),
}

// What the start of an entry says, and the length used.
#[derive(Clone, Copy, Debug, PartialEq, Eq)]
pub struct Heading {
    pub route: u8,
    pub unknowns: usize,
    pub givens: usize,
    pub used: usize,
}

// Why a condition was not solved: there is no solution, and every choice fails in this state; or a question was answered no before.
#[derive(Clone, Copy, Debug, PartialEq, Eq)]
pub enum Unsolved {
    None(State),
    Refused(Question),
}

impl From<Question> for Unsolved {
    ghost use Rattle.calls.specs.declared.Unsolved.{Unsolved};

    ghost from_gives = { λ question e. e ≡ Unsolved.Refused question };

    fn from(question: Question) -> Self {
        Unsolved::Refused(question)
    }
}

// Whose answers they are.
#[derive(Clone, Copy, Debug, PartialEq, Eq)]
pub enum Formula {
    Boole,
    Lowenheim,
}

// What an entry says that was read or audited.
#[derive(Clone, Copy, Debug, PartialEq, Eq)]
pub struct Entry {
    pub heading: Heading,
    pub verdict: Verdict,
}

// Why a walk stopped: the first no at an entry, and how many were passed before it.
#[derive(Clone, Copy, Debug, PartialEq, Eq)]
pub struct Stopped {
    pub question: Question,
    pub passed: usize,
}
