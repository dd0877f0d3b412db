// The kinds of records: 'one byte of kind, then a body whose length the kind fixes'.

#![tactic(auto, unfolding(entry::specs::Record::size, entry::specs::Record::fields, entry::specs::Record::widths))]

ghost use Rattle.std.specs.Prelude.{◌≡◌};
ghost use Rattle.entry.specs.Record.{size};
ghost use Rattle.records.specs.Inner.Kinds.{byte_of, base_of, Decodes};

#[derive(Clone, Copy, Debug, PartialEq, Eq)]
pub enum Kind {
    Start = 1, // the route, the numbers of unknowns and of givens
    Condition, // a monomial of the condition
    Answer, // an unknown, and a monomial of its answer
    End, // the route again
    None, // the state that has no solution
    Order, // the bytes of the order
    Fact, // a monomial of the fact
}

// A byte for which there is no kind.
#[derive(Clone, Copy, Debug, PartialEq, Eq)]
pub struct NoKind(pub u8);

impl TryFrom<u8> for Kind {
    type Error = NoKind;

    ghost try_from_gives = { Decodes };

    fn try_from(byte: u8) -> Result<Self, NoKind> {
        // The seven numbers stand here and at the variants alone.
        match byte {
            1 => Ok(Kind::Start),
            2 => Ok(Kind::Condition),
            3 => Ok(Kind::Answer),
            4 => Ok(Kind::End),
            5 => Ok(Kind::None),
            6 => Ok(Kind::Order),
            7 => Ok(Kind::Fact),
            _ => Err(NoKind(byte)),
        }
    }
}

impl Kind {
    // The byte that stands for it: its discriminant.
    #[inline]
    pub fn byte(self) -> u8
        ensures { result ≡ byte_of self }
    {
        self as u8
    }

    // How many bytes its records have.
    #[inline]
    pub fn size(self) -> usize
        ensures { result ≡ size (byte_of self) }
    {
        match self {
            Kind::End | Kind::None => 2,
            Kind::Condition | Kind::Fact => 3,
            Kind::Start | Kind::Answer => 4,
            Kind::Order => 7,
        }
    }
    // The number of the first of the tables that the monomials of its records belong to.
    #[inline]
    pub fn first_table(self) -> usize
        ensures { result ≡ base_of self }
    {
        match self {
            Kind::Answer => 2,
            Kind::Condition => 1,
            _ => 0,
        }
    }
}
