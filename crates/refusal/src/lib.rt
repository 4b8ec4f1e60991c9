// The numbers that document 01 gives instead of bits ("Numbers given instead of bits"), as an enum.
#![tactic(auto)]

ghost use Rattle.std.specs.Prelude.{◌≡◌, ◌++◌, Some, codes, decimal};
ghost use Rattle.refusal.specs.Numbers.{number_of, refusal_of, replied};

use std::error::Error;
use std::fmt;

// Why a call was refused: each variant has the document's number, 1 to 10.
#[derive(Clone, Copy, Debug, PartialEq, Eq)]
pub enum Refusal {
    Key = 1,
    Iv,
    Blackout,
    Rate,
    Bits,
    Input,
    Output,
    Closed,
    State,
    File,
}

impl Refusal {
    // The document's number of a refusal.
    pub fn number(self) -> u32
        ensures { result ≡ refusal_of self }
    {
        self as u32
    }
}

impl fmt::Display for Refusal {
    ghost output = { λ r. Some (codes "refused " ++ decimal (refusal_of r)) };

    fn fmt<W: fmt::Write>(&self, f: &mut fmt::Formatter<W>) -> fmt::Result {
        write!(f, "refused {}", self.number())
    }
}

impl Error for Refusal {}

// What a call answers, and the line after it. A `Result` would have no line where the call is refused, and 01 wants a record of zeros there (`refused_opening_is_zeros`).
#[derive(Clone, Copy)]
pub struct Reply<T, L> {
    pub answer: Result<T, Refusal>,
    pub line: L,
}

impl<L: Copy> Reply<(), L> {
    // An opening's: the line that it opened, or in its place the one for a refused opening.
    pub fn of(opened: Result<L, Refusal>, refused: L) -> Reply<(), L>
        ensures { result ≡ replied opened refused }
    {
        match opened {
            Ok(line) => Reply {
                answer: Ok(()),
                line,
            },
            Err(refusal) => Reply {
                answer: Err(refusal),
                line: refused,
            },
        }
    }
}

// The document's number of an answer, for hosts in C: 0 where the call was done.
pub fn code<T: Drop>(answer: Result<T, Refusal>) -> u32
    ensures { result ≡ number_of answer }
{
    match answer {
        Ok(_) => 0,
        Err(refusal) => refusal.number(),
    }
}
