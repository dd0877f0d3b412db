// The walk over a volume. Public calls: `walk_volume`, and over the struct `Walk` the two functions `walk_from`, which makes one, and `answer`.
// `walk_at` does the work on the slice and the number; the functions over the struct only take it apart.

#![tactic(auto)]

ghost use Rattle.std.specs.Prelude.{◌≡◌, [], ◌≤◌, ◌<◌, length, drop};
ghost use Rattle.tables.specs.Answered.{answered, call};
ghost use Rattle.entry.specs.Held.{records};
ghost use Rattle.calls.specs.Questions.{route_rises, walk_questions};
ghost use Rattle.calls.specs.Entries.{reading, read_values};
ghost use Rattle.volume.specs.Inner.Before.{route_before};
ghost use Rattle.calls.specs.Walk.{walked, walk_call};

use calls::{Entry, Stopped};
use tables::Question;

// 'A walk is made from a lent volume and a place in it'
#[derive(Clone, Copy)]
pub struct Walk<'a> {
    pub volume: &'a [u8],
    pub place: usize,
}

// Question 15. A route that passes question 2 is not 0, so that 0 may stand for none before.
fn route_rises(before: Option<u8>, route: u8) -> bool
    requires { 0 < route }
    ensures { result ≡ route_rises (route_before before) route }
{
    match before {
        None => true,
        Some(before) => before < route,
    }
}

// The audit's questions, then 15, of the entry that stands at a place.
fn audit_at(volume: &[u8], at: usize, before: Option<u8>) -> Result<Entry, Question>
    requires { at ≤ length volume.now }
    ensures { answered (reading result) []
        ≡ call (walk_questions (route_before before) (records (drop at volume.now))) (read_values (records (drop at volume.now))) [] }
{
    let entry = audit::audit(&volume[at..])?;
    tables::require(Question::Rising, route_rises(before, entry.heading.route))?;
    Ok(entry)
}

// The walk, on the slice and the number.
fn walk_at(volume: &[u8], place: usize) -> Result<usize, Stopped>
    ensures { answered (walked result) [] ≡ walk_call volume.now place }
{
    let mut at = place;
    let mut before = None;
    let mut passed = 0;
    // Each entry says where the next begins: no iterator walks these.
    while at < volume.len() {
        let entry = audit_at(volume, at, before).map_err(|question| Stopped { question, passed })?;
        before = Some(entry.heading.route);
        passed += 1;
        at += entry.heading.used;
    }
    Ok(passed)
}

pub fn walk_from<'a>(volume: &'a [u8], place: usize) -> Walk<'a>
    ensures { (result.volume ≡ volume.entry) × (result.place ≡ place) }
{
    Walk { volume, place }
}

pub fn answer<'a>(walk: Walk<'a>) -> Result<usize, Stopped>
    ensures { answered (walked result) [] ≡ walk_call walk.entry.volume.now walk.entry.place }
{
    walk_at(walk.volume, walk.place)
}

// The walk, for callers that hold no `Walk`.
pub fn walk_volume(volume: &[u8], place: usize) -> Result<usize, Stopped>
    ensures { answered (walked result) [] ≡ walk_call volume.now place }
{
    answer(walk_from(volume, place))
}
