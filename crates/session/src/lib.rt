// Named design states: a session that a designer's steps go through. Public calls, none with a `requires`: `Session::start`, and by value
// on the session `add`, `mark` and `return_to`. A caller may hand in any session, so that each step asks it first.

#![tactic(auto)]

ghost use Rattle.std.specs.Prelude.{◌≡◌, [], ◌∷◌, ◌++◌, ◌≤◌, length, drop, take, MatchResult};
ghost use Rattle.ring.specs.Join.{join};
ghost use Rattle.ring.specs.Table.{AreBits, present, table};
ghost use Rattle.tables.specs.Inner.Passed.{NoneNo, IsFirstNo};
ghost use Rattle.calls.specs.Questions.{add_questions, is_name, mark_questions, return_questions};
ghost use Rattle.session.specs.Session.{new_session, under, asked_tables, added, marked, returned, start_step, add_step, mark_step, return_step};
ghost use Rattle.session.specs.Inner.Asking.{marked_questions};
ghost use Rattle.session.specs.Inner.Passed.{own_questions, PassedOwn, PassedName, IsStep};

use tables::{Letters, Question};

const FIRST_NAME: usize = 65; // `A`

const LAST_NAME: usize = 68; // `D`

// What stands under a name: whether it is marked, and the table that was present then. No Option: a block that a C caller keeps has the
// flag and the 1,024 bytes of every name, and those of a name that is not marked stay as they are.
#[derive(Clone, Copy)]
pub struct Mark {
    pub set: bool,
    pub table: [u8; 1024],
}

// The letters, the present table and the names `A` to `D`.
#[derive(Clone, Copy)]
pub struct Session {
    pub unknowns: usize,
    pub givens: usize,
    pub table: [u8; 1024],
    pub marks: [Mark; 4],
}

// The session after a step, and what the step answers.
#[derive(Clone, Copy)]
pub struct Step {
    pub session: Session,
    pub outcome: Result<(), Question>,
}

#[tactic(auto, unfolding(crate::specs::Session::new_session, crate::specs::Session::unmarked, crate::specs::Session::empty_table))]
fn new_session(u: usize, g: usize) -> Session
    ensures { result ≡ new_session u g }
{
    let empty = [0u8; 1024];
    let unmarked = Mark {
        set: false,
        table: empty,
    };
    Session {
        unknowns: u,
        givens: g,
        table: empty,
        marks: [unmarked; 4],
    }
}

// Question 8 of a name, if it is marked.
#[tactic(auto, unfolding(crate::specs::Inner::Asking::marked_questions, crate::specs::Session::marked_tables, tables::specs::Questions::bit_questions, tables::specs::Questions::first_no))]
fn ask_mark(k: usize, mark: &Mark) -> Result<(), Question>
    ensures { MatchResult result (λ _. NoneNo (marked_questions k (mark.now ∷ [])))
        (IsFirstNo (marked_questions k (mark.now ∷ []))) }
{
    if mark.set {
        tables::require(Question::Bits, tables::holds_bits(k, &mark.table))?;
    }
    Ok(())
}

// The same of each name.
fn ask_marks(k: usize, marks: &[Mark]) -> Result<(), Question>
    ensures { MatchResult result (λ _. NoneNo (marked_questions k marks.now)) (IsFirstNo (marked_questions k marks.now)) }
{
    for mark in marks {
        ask_mark(k, mark)?;
    }
    Ok(())
}

// Question 18.
#[tactic(auto, unfolding(calls::specs::Questions::is_name))]
fn is_name(name: usize) -> bool
    ensures { result ≡ is_name name }
{
    matches!(name, FIRST_NAME..=LAST_NAME)
}

// The table t with the table h joined to it.
fn joined_table(letters: Letters, t: [u8; 1024], h: &[u8]) -> [u8; 1024]
    requires { (letters.table_len ≤ length h.now) × AreBits (take letters.table_len t)
        × AreBits (take letters.table_len h.now) }
    ensures { result ≡ table letters.n (join letters.n (present t) (present h.now)) ++ drop letters.table_len t }
{
    let k = letters.table_len;
    let mut out = t;
    polynomials::join(letters.n, &t[..k], &h[..k], &mut out[..k]);
    out
}

// A table in the place of another. Byte by byte, and not inlined: within one session the compiler takes both for places that may overlap, and
// for a copy as one an archive for C would need one more function of the C library (`memmove`).
#[inline(never)]
fn put_table(from: &[u8; 1024], to: &mut [u8; 1024])
    ensures { to.new ≡ from.now }
{
    for (i, byte) in to.iter_mut().enumerate() {
        *byte = from[i];
    }
}

impl Session {
    // What every step first puts to the session handed in.
    #[tactic(auto, unfolding(calls::specs::Questions::session_questions, crate::specs::Inner::Asking::marked_questions, tables::specs::Questions::bit_questions, tables::specs::Questions::first_no))]
    fn ask(&self) -> Result<Letters, Question>
        ensures { MatchResult result (PassedOwn self.now) (IsFirstNo (own_questions self.now)) }
    {
        let letters = Letters::new(self.unknowns, self.givens)?;
        let k = letters.table_len;
        tables::require(Question::Bits, tables::holds_bits(k, &self.table))?;
        ask_marks(k, &self.marks)?;
        Ok(letters)
    }

    // The same, and question 18: the place of the name.
    fn ask_name(&self, name: usize) -> Result<usize, Question>
        ensures { MatchResult result (PassedName self.now name)
            (IsFirstNo (mark_questions self.now.unknowns self.now.givens (asked_tables self.now) name)) }
    {
        self.ask()?;
        tables::require(Question::Name, is_name(name))?;
        Ok(name - FIRST_NAME)
    }

    // Adds a condition in place, so that the session is not copied once more; unless the step is refused.
    fn try_add(&mut self, h: &[u8]) -> Result<(), Question>
        ensures { IsStep (add_questions self.old.unknowns self.old.givens (asked_tables self.old) h.now)
            (added self.old h.now) self.old result self.new }
    {
        let letters = self.ask()?;
        let k = letters.table_len;
        tables::require(Question::Room, tables::has_room(k, h.len()))?;
        tables::require(Question::Bits, tables::holds_bits(k, h))?;
        self.table = joined_table(letters, self.table, h);
        Ok(())
    }

    // Stores the present state under a name, in place, unless the step is refused.
    fn try_mark(&mut self, name: usize) -> Result<(), Question>
        ensures { IsStep (mark_questions self.old.unknowns self.old.givens (asked_tables self.old) name)
            (marked self.old name) self.old result self.new }
    {
        let i = self.ask_name(name)?;
        self.marks[i] = Mark {
            set: true,
            table: self.table,
        };
        Ok(())
    }

    // Makes the state that is stored under a name the present one, in place, unless the step is refused.
    fn try_return(&mut self, name: usize) -> Result<(), Question>
        ensures { IsStep (return_questions self.old.unknowns self.old.givens (asked_tables self.old) name (under self.old name).set)
            (returned self.old name) self.old result self.new }
    {
        let i = self.ask_name(name)?;
        tables::require(Question::Marked, self.marks[i].set)?;
        put_table(&self.marks[i].table, &mut self.table);
        Ok(())
    }

    // A new session.
    pub fn start(u: usize, g: usize) -> Step
        ensures { result ≡ start_step u g }
    {
        match Letters::new(u, g) {
            Ok(_) => Step {
                session: new_session(u, g),
                outcome: Ok(()),
            },
            Err(question) => Step {
                session: new_session(0, 0),
                outcome: Err(question),
            },
        }
    }

    // A condition is added to those that are present.
    #[tactic(auto, using(crate::proofs::Outcomes::step_asked))]
    pub fn add(mut self, h: &[u8]) -> Step
        ensures { result ≡ add_step self h.now }
    {
        let outcome = self.try_add(h);
        Step {
            session: self,
            outcome,
        }
    }

    // The present state is stored under a name.
    #[tactic(auto, using(crate::proofs::Outcomes::step_asked))]
    pub fn mark(mut self, name: usize) -> Step
        ensures { result ≡ mark_step self name }
    {
        let outcome = self.try_mark(name);
        Step {
            session: self,
            outcome,
        }
    }

    // The state that is stored under a name becomes the present one.
    #[tactic(auto, using(crate::proofs::Outcomes::step_asked))]
    pub fn return_to(mut self, name: usize) -> Step
        ensures { result ≡ return_step self name }
    {
        let outcome = self.try_return(name);
        Step {
            session: self,
            outcome,
        }
    }
}
