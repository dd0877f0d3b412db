// The library as C and Rust see it: one exported function for each public call, on numbers and byte slices.
// A slice passes as a pointer and then a length, an order of six bytes and a session of 5,126 as a pointer alone. Each function has the
// contract of its call, with the answer as a code (`specs/Codes.antt`).

#![tactic(auto)]

ghost use Rattle.std.specs.Prelude.{◌≡◌, [], ◌∷◌, ◌%◌, ◌<◌, ◌≤◌};
ghost use Rattle.tables.specs.Answered.{answered, coded};
ghost use Rattle.calls.specs.Counted.{value_said};
ghost use Rattle.calls.specs.Operations.{outcome, value_call, sum_call, product_call, substitute_call, derivative_call};
ghost use Rattle.calls.specs.Text.{text_call};
ghost use Rattle.calls.specs.Solving.{solving, boole_call, particular_call, lowenheim_call, handed_call};
ghost use Rattle.calls.specs.Shorter.{shorter_said, shorter_refusal, which_shorter_call};
ghost use Rattle.calls.specs.Entries.{write_call, state_said, reading, read_call, audit_call};
ghost use Rattle.calls.specs.Walk.{walked, walk_call};
ghost use Rattle.session_block.specs.Block.{start_block, add_block, mark_block, return_block};
ghost use Rattle.layodegi.specs.Codes.{code, state_code, heading_code, entry_code};

use calls::{Entry, Formula, Heading, Stopped, Unsolved, Verdict};
use ring::{Choice, State};
use tables::Question;

// A value as 32 bits; every value that a call gives is smaller. A code cuts its values to their bits, and no conversion of the library cuts: so
// here, and where the values of an entry's code are cut.
fn narrow(v: usize) -> u64
    ensures { (result ≡ v % 4294967296) × (result < 4294967296) }
{
    (v % 4294967296) as u64
}

fn outcome_code(answer: Result<(), Question>) -> u64
    ensures { result ≡ code (outcome answer) }
{
    match answer {
        Ok(()) => 0,
        Err(question) => u64::from(tables::number(question)),
    }
}

// Of a call that answers one value: a number of monomials, the value of a table, or a length. By itself: a map from the answers above would
// have its own contract, and be no plainer.
fn value_code(answer: Result<usize, Question>) -> u64
    ensures { result ≡ code (value_said answer) }
{
    match answer {
        Ok(value) => 256 * narrow(value),
        Err(question) => u64::from(tables::number(question)),
    }
}

fn solving_code(answer: Result<usize, Unsolved>) -> u64
    ensures { result ≡ code (solving answer) }
{
    match answer {
        Ok(total) => 256 * narrow(total),
        Err(Unsolved::None(state)) => 9 + 256 * narrow(state.0),
        Err(Unsolved::Refused(question)) => u64::from(tables::number(question)),
    }
}

fn shorter_code(answer: Result<Formula, Question>) -> u64
    ensures { result ≡ code (shorter_said answer) }
{
    match answer {
        Ok(Formula::Boole) => 0,
        Ok(Formula::Lowenheim) => 256,
        Err(question) => u64::from(tables::number(question)),
    }
}

fn walk_code(answer: Result<usize, Stopped>) -> u64
    ensures { result ≡ code (walked answer) }
{
    match answer {
        Ok(count) => 256 * narrow(count),
        Err(stopped) => {
            u64::from(tables::number(stopped.question)) + 256 * narrow(stopped.passed)
        }
    }
}

fn byte_of(v: usize) -> u64
    ensures { (result ≡ v % 256) × (result < 256) }
{
    (v % 256) as u64
}

fn two_bytes_of(v: usize) -> u64
    ensures { (result ≡ v % 65536) × (result < 65536) }
{
    (v % 65536) as u64
}

fn heading_code(h: Heading) -> u64
    ensures { (result ≡ heading_code h.route h.unknowns h.givens h.used) × (result < 281474976710656) }
{
    256 * (h.route as u64)
        + 65536 * byte_of(h.unknowns)
        + 16777216 * byte_of(h.givens)
        + 4294967296 * two_bytes_of(h.used)
}

fn verdict_code(verdict: Verdict) -> u64
    ensures { (result ≡ state_code (state_said verdict)) × (result ≤ 256) }
{
    match verdict {
        Verdict::Solved => 0,
        Verdict::None(state) => 1 + byte_of(state.0),
    }
}

fn read_code(answer: Result<Entry, Question>) -> u64
    ensures { result ≡ entry_code (reading answer) }
{
    match answer {
        Ok(held) => heading_code(held.heading) + 281474976710656 * verdict_code(held.verdict),
        Err(question) => u64::from(tables::number(question)),
    }
}

// The value of a table at a state and a choice.
#[unsafe(no_mangle)]
pub extern "C" fn layodegi_value(
    u: usize,
    g: usize,
    table: &[u8],
    state: usize,
    choice: usize,
) -> u64
    ensures { answered result []
        ≡ coded code (value_call u g table.now (record { 0 = state }) (record { 0 = choice })) }
{
    value_code(operations::value(u, g, table, State(state), Choice(choice)).map(usize::from))
}

// The sum of two tables: the code has the number of its monomials.
#[unsafe(no_mangle)]
pub extern "C" fn layodegi_sum(u: usize, g: usize, a: &[u8], b: &[u8], out: &mut [u8]) -> u64
    ensures { answered result (out.new ∷ [])
        ≡ coded code (sum_call u g a.now b.now out.old) }
{
    value_code(operations::sum(u, g, a, b, out))
}

// The product of two tables: the code has the number of its monomials.
#[unsafe(no_mangle)]
pub extern "C" fn layodegi_product(u: usize, g: usize, a: &[u8], b: &[u8], out: &mut [u8]) -> u64
    ensures { answered result (out.new ∷ [])
        ≡ coded code (product_call u g a.now b.now out.old) }
{
    value_code(operations::product(u, g, a, b, out))
}

// Handed polynomials put for the unknowns of a condition: the code has the number of monomials of what comes out.
#[unsafe(no_mangle)]
pub extern "C" fn layodegi_substitute(
    u: usize,
    g: usize,
    condition: &[u8],
    handed: &[u8],
    out: &mut [u8],
) -> u64
    ensures { answered result (out.new ∷ [])
        ≡ coded code (substitute_call u g condition.now handed.now out.old) }
{
    value_code(operations::substitute(u, g, condition, handed, out))
}

// The derivative of a table by the letters of the mask s.
#[unsafe(no_mangle)]
pub extern "C" fn layodegi_derivative(
    u: usize,
    g: usize,
    table: &[u8],
    s: usize,
    out: &mut [u8],
) -> u64
    ensures { answered result (out.new ∷ [])
        ≡ coded code (derivative_call u g table.now s out.old) }
{
    outcome_code(operations::derivative(u, g, table, s, out))
}

// The table that a text is read into.
#[unsafe(no_mangle)]
pub extern "C" fn layodegi_read_text(u: usize, g: usize, text: &[u8], condition: &mut [u8]) -> u64
    ensures { answered result (condition.new ∷ [])
        ≡ coded code (text_call u g text.now condition.old) }
{
    outcome_code(notation::read_text(u, g, text, condition))
}

// Boole's answers: the code has the total of their monomials.
#[unsafe(no_mangle)]
pub extern "C" fn layodegi_boole(
    u: usize,
    g: usize,
    order: &[u8; 6],
    fact: &[u8],
    condition: &[u8],
    answers: &mut [u8],
) -> u64
    ensures { answered result (answers.new ∷ [])
        ≡ coded code (boole_call u g order.now fact.now condition.now answers.old) }
{
    solving_code(solver::boole(u, g, *order, fact, condition, answers))
}

// The particular solution: the code has the total of its monomials.
#[unsafe(no_mangle)]
pub extern "C" fn layodegi_particular(
    u: usize,
    g: usize,
    order: &[u8; 6],
    fact: &[u8],
    condition: &[u8],
    answers: &mut [u8],
) -> u64
    ensures { answered result (answers.new ∷ [])
        ≡ coded code (particular_call u g order.now fact.now condition.now answers.old) }
{
    solving_code(solver::particular(u, g, *order, fact, condition, answers))
}

// Löwenheim's answers from the particular solution: the code has the total of their monomials.
#[unsafe(no_mangle)]
pub extern "C" fn layodegi_lowenheim(
    u: usize,
    g: usize,
    order: &[u8; 6],
    fact: &[u8],
    condition: &[u8],
    answers: &mut [u8],
) -> u64
    ensures { answered result (answers.new ∷ [])
        ≡ coded code (lowenheim_call u g order.now fact.now condition.now answers.old) }
{
    solving_code(solver::lowenheim(u, g, *order, fact, condition, answers))
}

// Löwenheim's formula on handed polynomials that solve the condition: the code has the total of the answers' monomials.
#[unsafe(no_mangle)]
pub extern "C" fn layodegi_lowenheim_handed(
    u: usize,
    g: usize,
    fact: &[u8],
    condition: &[u8],
    handed: &[u8],
    answers: &mut [u8],
) -> u64
    ensures { answered result (answers.new ∷ [])
        ≡ coded code (handed_call u g fact.now condition.now handed.now answers.old) }
{
    value_code(solver::lowenheim_handed(u, g, fact, condition, handed, answers))
}

// The companion of the shorter of two answer tables: the number of the first no, or 0.
#[unsafe(no_mangle)]
pub extern "C" fn layodegi_shorter_refusal(
    u: usize,
    g: usize,
    boole: &[u8],
    lowenheim: &[u8],
) -> u64
    ensures { result ≡ shorter_refusal u g boole.now lowenheim.now }
{
    shorter::shorter_refusal(u, g, boole, lowenheim) as u64
}

// Which of two answer tables is the shorter: the code has 0 for Boole's, 1 for Löwenheim's. An exported function cannot hand back a part.
#[unsafe(no_mangle)]
pub extern "C" fn layodegi_which_shorter(u: usize, g: usize, boole: &[u8], lowenheim: &[u8]) -> u64
    ensures { answered result [] ≡ coded code (which_shorter_call u g boole.now lowenheim.now) }
{
    shorter_code(shorter::which_shorter(u, g, boole, lowenheim))
}

// Writes the entry of a condition under a fact: the code has its length.
#[unsafe(no_mangle)]
pub extern "C" fn layodegi_write_entry(
    route: usize,
    u: usize,
    g: usize,
    order: &[u8; 6],
    fact: &[u8],
    condition: &[u8],
    out: &mut [u8],
) -> u64
    ensures { answered result (out.new ∷ [])
        ≡ coded code (write_call route u g order.now fact.now condition.now out.old) }
{
    value_code(writer::write_entry(route, u, g, *order, fact, condition, out))
}

// Reads an entry: its order, its fact, its condition table and, if it is solved, its answer tables.
#[unsafe(no_mangle)]
pub extern "C" fn layodegi_read_entry(
    bytes: &[u8],
    order: &mut [u8; 6],
    fact: &mut [u8],
    condition: &mut [u8],
    answers: &mut [u8],
) -> u64
    ensures { answered result (order.new ∷ fact.new ∷ condition.new ∷ answers.new ∷ [])
        ≡ coded entry_code (read_call bytes.now order.old fact.old condition.old
        answers.old) }
{
    read_code(reader::read_entry(bytes, order, fact, condition, answers))
}

// Audits an entry.
#[unsafe(no_mangle)]
pub extern "C" fn layodegi_audit(bytes: &[u8]) -> u64
    ensures { answered result [] ≡ coded entry_code (audit_call bytes.now) }
{
    read_code(audit::audit(bytes))
}

// Walks a volume from a place: the code has the count of entries that passed.
#[unsafe(no_mangle)]
pub extern "C" fn layodegi_walk(volume: &[u8], place: usize) -> u64
    ensures { answered result [] ≡ coded code (walk_call volume.now place) }
{
    walk_code(volume::walk_volume(volume, place))
}

// A new session, in a block that the caller keeps.
#[unsafe(no_mangle)]
pub extern "C" fn layodegi_session_start(u: usize, g: usize, session: &mut [u8; 5126]) -> u64
    ensures { answered result (session.new ∷ []) ≡ coded code (start_block u g) }
{
    outcome_code(session_block::start(u, g, session))
}

// A condition is added.
#[unsafe(no_mangle)]
pub extern "C" fn layodegi_session_add(session: &mut [u8; 5126], h: &[u8]) -> u64
    ensures { answered result (session.new ∷ []) ≡ coded code (add_block session.old h.now) }
{
    outcome_code(session_block::add(session, h))
}

// The present state is stored under a name.
#[unsafe(no_mangle)]
pub extern "C" fn layodegi_session_mark(session: &mut [u8; 5126], name: usize) -> u64
    ensures { answered result (session.new ∷ []) ≡ coded code (mark_block session.old name) }
{
    outcome_code(session_block::mark(session, name))
}

// The state that is stored under a name becomes the present one.
#[unsafe(no_mangle)]
pub extern "C" fn layodegi_session_return(session: &mut [u8; 5126], name: usize) -> u64
    ensures { answered result (session.new ∷ []) ≡ coded code (return_block session.old name) }
{
    outcome_code(session_block::return_to(session, name))
}
