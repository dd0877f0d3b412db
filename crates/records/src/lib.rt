// The records that stand in bytes, one by one, and going over an entry once for what reading and audit ask of it and for what it says.
// A record is its slice of the bytes. Nothing here is a public call of the library: the functions are for the crates above, which meet
// what they require.

#![tactic(auto)]

ghost use Rattle.std.specs.Prelude.{◌≡◌, true, false, ◌&&◌, cond, List, ℕ, ◌+◌, ◌-◌, ◌*◌, ◌^◌, ◌≤◌, ◌<◌, eqb, length, drop, set, Some, None, unwrap_or, ⊤, MatchBool, MatchOption, MatchResult, OnOk};
ghost use Rattle.tables.specs.Inner.Passed.{NoneNo, IsFirstNo};
ghost use Rattle.order.specs.Inner.Place.{AreLetters};
ghost use Rattle.solution.specs.Fact.{no_fact};
ghost use Rattle.entry.specs.Record.{mask_field, kind, value_of, is_monomial, table_in, in_bounds};
ghost use Rattle.entry.specs.Held.{next, records, unknowns_of, givens_of, held_condition};
ghost use Rattle.entry.specs.Questions.{may_follow, kinds_fit};
ghost use Rattle.entry.specs.Inner.Places.{place, place_of};
ghost use Rattle.calls.specs.Questions.{fact_questions, record_questions, entry_questions};
ghost use Rattle.facts.specs.Inner.Kept.{kept_words};
ghost use Rattle.records.specs.Inner.Kinds.{byte_of, byte_before, base_of, stands_in_row, IsOf, IsThere, stands, NoneStands};
ghost use Rattle.records.specs.Inner.Headings.{start_of, order_behind};
ghost use Rattle.records.specs.Inner.Gathering.{seen_record, gathered, said_by, Further, PassedGathered, gathered_questions, AsksEntry, IsSurvey, IsRefused};
ghost use Rattle.records.specs.Inner.Filling.{zeros, Fitting, RowFilling, FactFilling, Passed};

mod kinds;

use calls::{Entry, Heading, Verdict};
pub use kinds::Kind;
use ring::State;
use tables::{Letters, Question};

// What an entry says that passes 10, 11, 1, 2, 12, 17, 22 and 23, with its letters and its order.
#[derive(Clone, Copy)]
pub struct Survey {
    pub entry: Entry,
    pub letters: Letters,
    pub order: [u8; 6],
}

// Why an entry is refused, and what its bytes say all the same.
#[derive(Clone, Copy)]
pub struct Refused {
    pub question: Question, // the first no
    pub entry: Entry, // its length used is 0 where there is no kind 4
    pub order: [u8; 6],
}

impl From<Refused> for Question {
    ghost from_gives = { λ refused question. question ≡ refused.question };

    fn from(refused: Refused) -> Self {
        refused.question
    }
}

// What questions 11 and 12 hold against each record.
#[derive(Drop)]
struct Bounds {
    route: u8,
    letters: Letters,
    states: usize,
    counts: [u8; 32], // of the letters of masks
    ghost states_are: { states ≡ 2 ^ letters.givens },
    ghost counts_are: { AreLetters counts },
}

// A monomial and its table: 0 is the fact, 1 the condition, j + 2 the answer for unknown j.
#[derive(Clone, Copy)]
struct Monomial {
    table: usize,
    mask: usize,
}

// What has been seen of the records up to a place. The two flags answer a question each, with no value beside.
#[derive(Clone, Copy)]
pub struct Seen {
    pub kind: Option<Kind>, // of the last record
    pub place: usize, // of the last record's monomial, 0 if it has none: the specification's own number
    pub kinds: bool, // question 11 of the records so far
    pub numbers: bool, // question 12 of the records so far
    pub none: Option<State>, // what the first kind 5 says
}

// A place in the bytes, and what has been seen of the records before it.
#[derive(Clone, Copy)]
pub struct Position {
    pub at: usize,
    pub seen: Seen,
}

// What has been seen when the records end, and the length used if there is a kind 4.
#[derive(Clone, Copy)]
pub struct Gathered {
    pub used: Option<usize>,
    pub seen: Seen,
}

// 'Masks are two bytes, low byte first'
pub fn mask_of(low: u8, high: u8) -> usize
    ensures { result ≡ low + 256 * high }
{
    usize::from(u16::from_le_bytes([low, high]))
}

// The kind of the whole record that stands at a place, if there is one.
pub fn kind_at(s: &[u8], at: usize) -> Option<Kind>
    requires { at ≤ length s.now }
    ensures { MatchOption result (NoneStands s.now at) (IsThere s.now at) }
{
    if s.len() <= at {
        return None;
    }
    let kind = Kind::try_from(s[at]).ok()?;
    if s.len() - at < kind.size() {
        return None;
    }
    Some(kind)
}

// Does a whole record of the kind stand at a place?
#[inline(always)]
pub fn is_there(s: &[u8], at: usize, kind: Kind) -> bool
    requires { at ≤ length s.now }
    ensures value { result ≡ stands s.now at kind }
    ensures there { MatchBool result (IsThere s.now at kind) ⊤ }
{
    kind.size() <= s.len() - at && s[at] == kind.byte()
}

// May the kind stand right behind the one before, or first, where there is none before?
#[tactic(auto, unfolding(entry::specs::Questions::may_follow, ring::specs::Lists::has))]
fn may_follow(before: Option<Kind>, kind: Kind) -> bool
    ensures { result ≡ may_follow (byte_before before) (byte_of kind) }
{
    match before {
        None => kind == Kind::Start,
        Some(Kind::Start) => kind != Kind::Start,
        Some(Kind::Condition) => matches!(
            kind,
            Kind::Condition | Kind::Answer | Kind::End | Kind::None
        ),
        Some(Kind::Answer) => matches!(kind, Kind::Answer | Kind::End),
        Some(Kind::End) => false,
        Some(Kind::None) => kind == Kind::End,
        Some(Kind::Order | Kind::Fact) => matches!(
            kind,
            Kind::Condition | Kind::Answer | Kind::End | Kind::None | Kind::Fact
        ),
    }
}

// The bytes of an order, from its record.
fn order_in(r: &[u8]) -> [u8; 6]
    requires { length r.now ≡ 7 }
    ensures { result ≡ drop 1 r.now }
{
    [r[1], r[2], r[3], r[4], r[5], r[6]]
}

// The monomial of a record that has one.
#[inline(always)]
#[tactic(auto, unfolding(entry::specs::Record::size, entry::specs::Record::fields, entry::specs::Record::widths))]
fn monomial_in(kind: Kind, r: &[u8]) -> Monomial
    requires { IsOf kind r.now × (stands_in_row kind ≡ true) }
    ensures is { (result.table ≡ table_in r.now) × (result.mask ≡ value_of mask_field r.now) }
    ensures small { (result.table ≤ 257) × (result.mask < 65536) }
{
    match kind {
        Kind::Answer => Monomial {
            table: usize::from(r[1]) + 2,
            mask: mask_of(r[2], r[3]),
        },
        Kind::Condition => Monomial {
            table: 1,
            mask: mask_of(r[1], r[2]),
        },
        _ => Monomial {
            table: 0,
            mask: mask_of(r[1], r[2]),
        },
    }
}

impl Bounds {
    fn new(route: u8, letters: Letters) -> Self
        ensures { (result.route ≡ route) × (result.letters ≡ letters) }
    {
        Bounds {
            route,
            letters,
            states: tables::pow2(letters.givens),
            counts: order::letter_counts(),
        }
    }

    // The place of the monomial of a record that has one, if it is within its bounds. One rising number tells it: the table, then the rank
    // in the written order.
    #[inline(always)]
    fn place_in(&self, kind: Kind, r: &[u8]) -> Option<usize>
        requires { IsOf kind r.now × (stands_in_row kind ≡ true) }
        ensures { MatchOption result (in_bounds self.now.letters.unknowns self.now.letters.givens r.now ≡ false)
            (λ p. (in_bounds self.now.letters.unknowns self.now.letters.givens r.now ≡ true) × (p ≡ place_of r.now)) }
    {
        let monomial = monomial_in(kind, r);
        if monomial.table < self.letters.unknowns + 2 && monomial.mask < self.letters.table_len {
            Some(16384 * monomial.table + order::rank_of(&self.counts, monomial.mask) + 1)
        } else {
            None
        }
    }

    // What has been seen with one more record.
    #[tactic(auto, unfolding(entry::specs::Record::size, entry::specs::Record::fields, entry::specs::Record::widths))]
    fn see(&self, seen: Seen, kind: Kind, r: &[u8]) -> Seen
        requires { IsOf kind r.now }
        ensures { result ≡ seen_record self.now.route self.now.letters.unknowns self.now.letters.givens seen r.now }
    {
        let next = Seen {
            kind: Some(kind),
            place: 0,
            kinds: seen.kinds & may_follow(seen.kind, kind),
            ..seen
        };
        match kind {
            Kind::Start => next,
            Kind::Condition | Kind::Answer | Kind::Fact => match self.place_in(kind, r) {
                Some(place) => Seen {
                    place,
                    numbers: seen.numbers & (seen.place < place),
                    ..next
                },
                None => Seen {
                    numbers: false,
                    ..next
                },
            },
            Kind::End => Seen {
                kinds: next.kinds & (r[1] == self.route),
                ..next
            },
            Kind::None => Seen {
                numbers: seen.numbers & (usize::from(r[1]) < self.states),
                none: seen.none.or(Some(State(usize::from(r[1])))),
                ..next
            },
            Kind::Order => Seen {
                numbers: seen.numbers & !entry::is_default(self.letters.unknowns, order_in(r)),
                ..next
            },
        }
    }

    // Goes over the records of a kind that stand behind one of it, as long as each passes question 12: of what has been seen only the
    // place changes. Where it is called with a known kind it becomes a loop that asks no more than it must.
    #[inline(always)]
    fn pass_row(&self, s: &[u8], from: usize, seen: Seen, kind: Kind) -> Position
        requires { (from ≤ length s.now) × (seen.kind ≡ Some kind) × (stands_in_row kind ≡ true) }
        ensures { Further s.now self.now.route self.now.letters.unknowns self.now.letters.givens seen from result.seen result.at }
    {
        let mut at = from;
        let mut place = seen.place;
        // From record to record, as far as the row goes: no iterator walks these.
        while is_there(s, at, kind) {
            let Some(next) = self.place_in(kind, &s[at..at + kind.size()]) else {
                break;
            };
            if next <= place {
                break;
            }
            place = next;
            at += kind.size();
        }
        Position {
            at,
            seen: Seen { place, ..seen },
        }
    }

    // Most records are monomials behind one of their kind.
    fn pass_monomials(&self, s: &[u8], from: usize, seen: Seen) -> Position
        requires { from ≤ length s.now }
        ensures { Further s.now self.now.route self.now.letters.unknowns self.now.letters.givens seen from result.seen result.at }
    {
        match seen.kind {
            Some(Kind::Condition) => self.pass_row(s, from, seen, Kind::Condition),
            Some(Kind::Answer) => self.pass_row(s, from, seen, Kind::Answer),
            Some(Kind::Fact) => self.pass_row(s, from, seen, Kind::Fact),
            _ => Position { at: from, seen },
        }
    }

    // Goes over the records to the first kind 4, or to where no whole record stands.
    fn gather(&self, s: &[u8]) -> Gathered
        ensures { result ≡ gathered self.now.route self.now.letters.unknowns self.now.letters.givens (records s.now) }
    {
        let mut at = 0;
        let mut seen = Seen {
            kind: None,
            place: 0,
            kinds: true,
            numbers: true,
            none: None,
        };
        while let Some(kind) = kind_at(s, at) {
            let behind = at + kind.size();
            let next = self.see(seen, kind, &s[at..behind]);
            if kind == Kind::End {
                return Gathered {
                    used: Some(behind),
                    seen: next,
                };
            }
            let to = self.pass_monomials(s, behind, next);
            at = to.at;
            seen = to.seen;
        }
        Gathered { used: None, seen }
    }
}

// Questions 10, 11, 1, 2, 12 and 17, where 1 and 17 are answered: the letters.
#[tactic(auto, unfolding(tables::specs::Questions::first_no))]
fn ask_gathered(
    gathered: Gathered,
    letters: Option<Letters>,
    route: u8,
    ordered: bool,
) -> Result<Letters, Question>
    ensures { MatchResult result (λ l. PassedGathered gathered letters route ordered (l, unwrap_or gathered.used 0))
        (IsFirstNo (gathered_questions gathered letters route ordered)) }
{
    tables::require(Question::Records, gathered.used.is_some())?;
    tables::require(Question::Kinds, gathered.seen.kinds)?;
    let letters = letters.ok_or(Question::Letters)?;
    tables::require(Question::Route, entry::route_fits(usize::from(route)))?;
    tables::require(Question::Numbers, gathered.seen.numbers)?;
    tables::require(Question::Order, ordered)?;
    Ok(letters)
}

fn verdict_of(none: Option<State>) -> Verdict
    ensures { result ≡ said_by none }
{
    match none {
        None => Verdict::Solved,
        Some(state) => Verdict::None(state),
    }
}

// No letters where question 1 is answered no, so that the bounds of 12 can be formed.
fn bounding(letters: Option<Letters>) -> Letters
    ensures { MatchOption letters ((result.unknowns ≡ 0) × (result.givens ≡ 0)) (λ l. result ≡ l) }
{
    match letters {
        Some(letters) => letters,
        None => Letters {
            unknowns: 0,
            givens: 0,
            n: 0,
            table_len: 1,
        },
    }
}

// What the first record says.
#[tactic(auto, unfolding(entry::specs::Record::size, entry::specs::Record::fields, entry::specs::Record::widths))]
fn start_of(s: &[u8]) -> Heading
    ensures { result ≡ start_of (records s.now) }
{
    let nothing = Heading {
        route: 0,
        unknowns: 0,
        givens: 0,
        used: 0,
    };
    if is_there(s, 0, Kind::Start) {
        return Heading {
            route: s[1],
            unknowns: usize::from(s[2]),
            givens: usize::from(s[3]),
            ..nothing
        };
    }
    if is_there(s, 0, Kind::End) {
        return Heading {
            route: s[1],
            ..nothing
        };
    }
    nothing
}

// The order's bytes: those of a kind 6 that stands second, or the order 0, 1, 2, ..
fn order_of(s: &[u8], u: usize) -> [u8; 6]
    ensures { result ≡ order_behind u (records s.now) }
{
    let default = solution::default_order(u);
    let Some(first) = kind_at(s, 0) else {
        return default;
    };
    if first == Kind::End {
        return default;
    }
    let at = first.size();
    if !is_there(s, at, Kind::Order) {
        return default;
    }
    let behind = at + Kind::Order.size();
    order_in(&s[at..behind])
}

// The library's method, behind one equation, which the proofs of what is filled cite.
pub fn clear(t: &mut [u8])
    ensures { t.new ≡ zeros (length t.old) }
{
    t.fill(0);
}

// Answers for which there is no room lie past the end.
// By index, and not by `get_mut`: what a write through that leaves in the slice is not proved.
#[inline]
pub fn put_one(t: &mut [u8], p: usize)
    ensures { t.new ≡ set t.old p 1 }
{
    if p < t.len() {
        t[p] = 1;
    }
}

// The byte of a record's monomial in the tables of its kind, of k bytes each, which lie one behind another.
#[inline(always)]
fn byte_in(kind: Kind, r: &[u8], k: usize) -> usize
    requires { IsOf kind r.now × (stands_in_row kind ≡ true) × (k ≤ 1024) }
    ensures { result ≡ (table_in r.now - base_of kind) * k + value_of mask_field r.now }
{
    let monomial = monomial_in(kind, r);
    (monomial.table - kind.first_table()) * k + monomial.mask
}

// The monomials in the records of a kind that stand one behind another become 1 in the tables of that kind; answers the place behind them.
// Where it is called with a known kind it becomes a loop for that kind.
#[inline(always)]
pub fn put_row(s: &[u8], from: usize, kind: Kind, letters: Letters, t: &mut [u8]) -> usize
    requires { (from ≤ length s.now) × (stands_in_row kind ≡ true) × Fitting letters.unknowns letters.givens (records (drop from s.now)) }
    ensures row { RowFilling kind s.now letters.unknowns letters.givens t.old from t.new result }
    ensures ended { stands s.now result kind ≡ false }
    ensures onward { stands s.now from kind ≡ true → from < result }
{
    let mut at = from;
    // From record to record, as far as the row goes: no iterator walks these.
    while is_there(s, at, kind) {
        let behind = at + kind.size();
        put_one(t, byte_in(kind, &s[at..behind], letters.table_len));
        at = behind;
    }
    at
}

// Where the monomials of the fact stand in a row, if there are any: behind the start, and behind the kind 6 if there is one.
fn fact_at(s: &[u8]) -> usize
    requires { kinds_fit (records s.now) ≡ true }
    ensures { (U G : ℕ) (t : List ℕ) → Fitting U G (records s.now) → FactFilling s.now U G t t result }
{
    let at = Kind::Start.size();
    if is_there(s, at, Kind::Order) {
        return at + Kind::Order.size();
    }
    at
}

// Has an entry that passes the questions before 22 a record of its fact? If not, the fact is 0; that is all that is needed of it.
pub fn has_fact(s: &[u8]) -> bool
    requires { NoneNo (record_questions (records s.now)) }
    ensures { result ≡ false → (held_condition (records s.now)).fact
        ≡ no_fact (unknowns_of (records s.now) + givens_of (records s.now)) }
{
    let at = fact_at(s);
    is_there(s, at, Kind::Fact)
}

// The fact that an entry holds which passes the questions before 22.
pub fn fill_fact(s: &[u8], letters: Letters, fact: &mut [u8])
    requires { Passed s.now letters × (length fact.old ≡ letters.table_len) }
    ensures { fact.new ≡ (held_condition (records s.now)).fact }
{
    clear(fact);
    let at = fact_at(s);
    put_row(s, at, Kind::Fact, letters, fact);
}

// Questions 22 and 23, and the values of 1 + g in `kept`. The table lives here, so that an entry without a fact does not clear it.
pub fn keep_fact(s: &[u8], letters: Letters, kept: &mut [u64]) -> Result<(), Question>
    requires { Passed s.now letters × (length kept.old ≡ 2 ^ (letters.n - 6)) }
    ensures value { MatchResult result (λ _. NoneNo (fact_questions letters.unknowns letters.givens (held_condition (records s.now)).fact))
        (IsFirstNo (fact_questions letters.unknowns letters.givens (held_condition (records s.now)).fact)) }
    ensures kept_after { OnOk result (kept.new ≡ kept_words letters.n (held_condition (records s.now)).fact) }
{
    let mut scratch = [0u8; 1024];
    let fact = &mut scratch[..letters.table_len];
    fill_fact(s, letters, fact);
    facts::keep(letters, fact, kept)
}

// Questions 22 and 23 behind those before them. Most entries have no fact to ask about.
fn ask_fact(s: &[u8], letters: Letters) -> Result<(), Question>
    requires { Passed s.now letters }
    ensures { MatchResult result (λ _. NoneNo (entry_questions (records s.now))) (IsFirstNo (entry_questions (records s.now))) }
{
    if !has_fact(s) {
        return Ok(());
    }
    let w = words::word_count(letters.n);
    let mut kept = [0u64; 16];
    keep_fact(s, letters, &mut kept[..w])
}

// All of them, of an entry that has been gone over.
fn ask_entry(
    s: &[u8],
    gathered: Gathered,
    letters: Option<Letters>,
    route: u8,
    ordered: bool,
) -> Result<Letters, Question>
    requires { AsksEntry (records s.now) gathered letters route ordered }
    ensures { MatchResult result (λ l. NoneNo (entry_questions (records s.now)) × Passed s.now l)
        (IsFirstNo (entry_questions (records s.now))) }
{
    let letters = ask_gathered(gathered, letters, route, ordered)?;
    ask_fact(s, letters)?;
    Ok(letters)
}

// Goes over the entry that the bytes begin with, and asks 10, 11, 1, 2, 12, 17, 22 and 23. What the bytes say is told with a refusal too.
pub fn survey_entry(s: &[u8]) -> Result<Survey, Refused>
    ensures { MatchResult result (IsSurvey (records s.now)) (IsRefused (records s.now)) }
{
    let start = start_of(s);
    let letters = Letters::new(start.unknowns, start.givens).ok();
    let gathered = Bounds::new(start.route, bounding(letters)).gather(s);
    let order = order_of(s, start.unknowns);
    let ordered = solution::order_fits(start.unknowns, order);
    let used = gathered.used.unwrap_or(0);
    let heading = Heading { used, ..start };
    let verdict = verdict_of(gathered.seen.none);
    let entry = Entry { heading, verdict };
    let letters = ask_entry(s, gathered, letters, start.route, ordered).map_err(
        |question| Refused {
            question,
            entry,
            order,
        },
    )?;
    Ok(Survey {
        entry,
        letters,
        order,
    })
}
