// Why a call says no.
ghost use Rattle.std.specs.Prelude.{◌≡◌};
ghost use Rattle.model.specs.Refused.{refusal_number};

use std::error::Error;
use std::fmt;

// Why a call says no, in the order of its numbers in documents 01 and 02, 1 to 8.
#[derive(Clone, Copy, Debug, PartialEq, Eq)]
pub enum Refusal {
    BadLength = 1,
    NotOpened = 2,
    NotSound = 3,
    BadSize = 4,
    NotLive = 5,
    NoRoom = 6,
    AlreadyOpened = 7,
    BadEnd = 8,
}

// The number of a refusal.
impl From<Refusal> for u64 {
    ghost from_gives = { λ k n. n ≡ refusal_number k };

    fn from(k: Refusal) -> u64 {
        k as u64
    }
}

impl fmt::Display for Refusal {
    fn fmt<W: fmt::Write>(&self, f: &mut fmt::Formatter<W>) -> fmt::Result {
        f.write_str(match self {
            Refusal::BadLength => "bad length",
            Refusal::NotOpened => "not opened",
            Refusal::NotSound => "not sound",
            Refusal::BadSize => "bad size",
            Refusal::NotLive => "not live",
            Refusal::NoRoom => "no room",
            Refusal::AlreadyOpened => "already opened",
            Refusal::BadEnd => "bad end",
        })
    }
}

impl Error for Refusal {}
