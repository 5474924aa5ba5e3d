// What a call may answer: the numbered list (RULES, Numbers), one variant for each number above 0.
#![tactic(auto)]

ghost use Rattle.std.specs.Prelude.{◌≡◌};
ghost use Rattle.answer.specs.Answer.{class_of, where_of, number_of, place_of};

pub mod limits;

#[derive(Clone, Copy)]
pub enum Refusal {
    Length,
    TooMany,
    NotFinite,
    Domain(usize),
    Masked,
    Result(usize),
    Count,
    RowTotal(usize),
    StoredLength,
    Check(usize),
    Header(usize),
    Unused(usize),
    OneBand,
}

// What a call answers: nothing more, or why it refuses.
pub type Answer = Result<(), Refusal>;

impl Refusal {
    // Its number in the list.
    pub fn number(self) -> u8
        ensures { result ≡ class_of self }
    {
        match self {
            Refusal::Length => 1,
            Refusal::TooMany => 2,
            Refusal::NotFinite => 3,
            Refusal::Domain(_) => 4,
            Refusal::Masked => 5,
            Refusal::Result(_) => 6,
            Refusal::Count => 7,
            Refusal::RowTotal(_) => 8,
            Refusal::StoredLength => 9,
            Refusal::Check(_) => 10,
            Refusal::Header(_) => 11,
            Refusal::Unused(_) => 12,
            Refusal::OneBand => 15,
        }
    }

    // Its place: an element, a row or a block from 0, and 0 where the number has none.
    pub fn place(self) -> usize
        ensures { result ≡ where_of self }
    {
        match self {
            Refusal::Domain(at)
            | Refusal::Result(at)
            | Refusal::RowTotal(at)
            | Refusal::Check(at)
            | Refusal::Header(at)
            | Refusal::Unused(at) => at,
            _ => 0,
        }
    }
}

// The answer's number in the list.
pub fn number(a: Answer) -> u8
    ensures { result ≡ number_of a }
{
    match a {
        Ok(()) => 0,
        Err(why) => why.number(),
    }
}

// The answer's place, 0 where it is done.
pub fn place(a: Answer) -> usize
    ensures { result ≡ place_of a }
{
    match a {
        Ok(()) => 0,
        Err(why) => why.place(),
    }
}
