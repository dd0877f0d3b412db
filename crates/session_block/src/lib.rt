// Sessions in blocks of 5,126 bytes, for callers outside the language, who keep them. Public calls, none with a `requires`: `start`, `add`,
// `mark`, `return_to`. Each takes the session out of the block, makes the step by value and puts the session after it back; a refused step
// leaves the block alone. Where each part stands is said in `specs/Block.antt`.

#![tactic(auto)]

ghost use Rattle.std.specs.Prelude.{◌≡◌, [], ◌∷◌, length};
ghost use Rattle.ring.specs.Letters.{digit};
ghost use Rattle.tables.specs.Answered.{answered};
ghost use Rattle.calls.specs.Operations.{outcome};
ghost use Rattle.session_block.specs.Block.{mark_in, session_in, mark_bytes, session_bytes, step_on, start_block, add_block, mark_block, return_block};
ghost use Rattle.session_block.specs.Inner.Letters.{ByteLetters};

use session::{Mark, Session, Step};
use tables::Question;

// The table whose bytes these are.
fn table_in(bytes: &[u8]) -> [u8; 1024]
    requires { length bytes.now ≡ 1024 }
    ensures { result ≡ bytes.now }
{
    let mut table = [0u8; 1024];
    table.copy_from_slice(bytes);
    table
}

// The name whose bytes these are.
fn mark_in(bytes: &[u8]) -> Mark
    requires { length bytes.now ≡ 1025 }
    ensures { result ≡ mark_in bytes.now }
{
    Mark {
        set: bytes[0] == 1,
        table: table_in(&bytes[1..]),
    }
}

// The session that a block holds.
fn session_in(block: &[u8; 5126]) -> Session
    ensures { (result ≡ session_in block.now) × ByteLetters result }
{
    let table = table_in(&block[2..1026]);
    let a = mark_in(&block[1026..2051]);
    let b = mark_in(&block[2051..3076]);
    let c = mark_in(&block[3076..4101]);
    let d = mark_in(&block[4101..5126]);
    Session {
        unknowns: usize::from(block[0]),
        givens: usize::from(block[1]),
        table,
        marks: [a, b, c, d],
    }
}

// The bytes of a name.
fn put_mark(mark: &Mark, bytes: &mut [u8])
    requires { length bytes.old ≡ 1025 }
    ensures { bytes.new ≡ digit mark.now.set ∷ mark.now.table }
{
    bytes[0] = u8::from(mark.set);
    bytes[1..].copy_from_slice(&mark.table);
}

// The bytes of the names, one behind another.
fn put_marks(marks: &[Mark; 4], bytes: &mut [u8])
    requires { length bytes.old ≡ 4100 }
    ensures { bytes.new ≡ mark_bytes marks.now }
{
    // By places: what a part holds that chunks_exact_mut has lent is not known to a proof afterwards.
    for (i, mark) in marks.iter().enumerate() {
        let start = i * 1025;
        put_mark(mark, &mut bytes[start..start + 1025]);
    }
}

// The bytes of a session.
fn put_session(s: &Session, block: &mut [u8; 5126])
    requires { ByteLetters s.now }
    ensures { block.new ≡ session_bytes s.now }
{
    block[0] = s.unknowns as u8;
    block[1] = s.givens as u8;
    block[2..1026].copy_from_slice(&s.table);
    put_marks(&s.marks, &mut block[1026..]);
}

// What a step answers; if it is done, the session after it goes into the block.
fn keep(step: Step, block: &mut [u8; 5126]) -> Result<(), Question>
    requires { ByteLetters step.session }
    ensures { answered (outcome result) (block.new ∷ []) ≡ step_on block.old step }
{
    step.outcome?;
    put_session(&step.session, block);
    Ok(())
}

// A new session.
pub fn start(u: usize, g: usize, block: &mut [u8; 5126]) -> Result<(), Question>
    ensures { answered (outcome result) (block.new ∷ []) ≡ start_block u g }
{
    let step = Session::start(u, g);
    put_session(&step.session, block);
    step.outcome
}

// A condition is added.
pub fn add(block: &mut [u8; 5126], h: &[u8]) -> Result<(), Question>
    ensures { answered (outcome result) (block.new ∷ []) ≡ add_block block.old h.now }
{
    let s = session_in(block);
    keep(s.add(h), block)
}

// The present state is stored under a name.
pub fn mark(block: &mut [u8; 5126], name: usize) -> Result<(), Question>
    ensures { answered (outcome result) (block.new ∷ []) ≡ mark_block block.old name }
{
    let s = session_in(block);
    keep(s.mark(name), block)
}

// The state that is stored under a name becomes the present one.
pub fn return_to(block: &mut [u8; 5126], name: usize) -> Result<(), Question>
    ensures { answered (outcome result) (block.new ∷ []) ≡ return_block block.old name }
{
    let s = session_in(block);
    keep(s.return_to(name), block)
}
