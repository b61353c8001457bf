// The calls and their answers, as the zone and the ledger both see them: definitions, and the answers that calls give.
#![tactic(auto)]

ghost use Rattle.std.specs.Prelude.{◌≡◌};
ghost use Rattle.calls.specs.Refusals.{code_of, beside_of};

use std::error::Error;
use std::fmt;

/// Why a call is refused, and no byte changed. Where several hold, docs/ZONE.md, "Refusals and their order", says which is answered.
#[derive(Clone, Copy, Debug, PartialEq, Eq)]
pub enum Refusal {
    /// The buffer holds no well-formed zone. Any call but `initialize`, `check` and `view`.
    NotWellFormed,
    /// No zone has this length with so many masters. Of `initialize`.
    BadInitialize,
    /// A block cannot be so large. Of the calls that allocate, resize or create.
    TooLarge,
    /// No master is free, and none can be added. Of `allocate_relocatable`.
    NoFreeHandle,
    /// No bay has so many bytes free; of `create_page`, not even without all pages that are not locked. Of the calls that allocate, resize or create.
    NoSpace,
    /// No block has this handle. Of the calls that name one.
    HandleNotLive,
    /// No fixed block has this pointer. Of the calls that name one.
    PointerNotFixed,
    /// The stretch goes past the block's end. Of `read` and `write`.
    PastBlockEnd,
    /// The zone cannot grow by so many bytes. Of `enlarge`.
    BadEnlarge,
    /// The second buffer is too short. Of `read`, `write` and `roster`.
    ShortBuffer,
    /// A page has this name. Of `create_page`.
    NamePresent,
    /// The dirty page of this name would have to go. Of `create_page`.
    DirtyPage(u32),
    /// No page has this name. Of the calls that name one, but `create_page`.
    NameAbsent,
    /// The limits break a rule. Of `census`.
    BadLimits,
}

impl Refusal {
    /// The number that the table of refusals gives it.
    pub fn number(self) -> u32
        ensures { result ≡ code_of self }
    {
        match self {
            Refusal::NotWellFormed => 1,
            Refusal::BadInitialize => 2,
            Refusal::TooLarge => 3,
            Refusal::NoFreeHandle => 4,
            Refusal::NoSpace => 5,
            Refusal::HandleNotLive => 6,
            Refusal::PointerNotFixed => 7,
            Refusal::PastBlockEnd => 8,
            Refusal::BadEnlarge => 9,
            Refusal::ShortBuffer => 10,
            Refusal::NamePresent => 11,
            Refusal::DirtyPage(_) => 12,
            Refusal::NameAbsent => 13,
            Refusal::BadLimits => 14,
        }
    }

    /// What the table has beside the number: the name of a `DirtyPage`, 0 for every other. In Rust the variant carries it.
    pub fn beside(self) -> u32
        ensures { result ≡ beside_of self }
    {
        match self {
            Refusal::DirtyPage(name) => name,
            _ => 0,
        }
    }
}

impl fmt::Display for Refusal {
    fn fmt<W: fmt::Write>(&self, f: &mut fmt::Formatter<W>) -> fmt::Result {
        let text = match self {
            Refusal::NotWellFormed => "the buffer holds no well-formed zone",
            Refusal::BadInitialize => "no zone has this length with so many masters",
            Refusal::TooLarge => "a block cannot be so large",
            Refusal::NoFreeHandle => "no master is free, and none can be added",
            Refusal::NoSpace => "no bay has so many bytes free",
            Refusal::HandleNotLive => "no block has this handle",
            Refusal::PointerNotFixed => "no fixed block has this pointer",
            Refusal::PastBlockEnd => "the stretch goes past the block's end",
            Refusal::BadEnlarge => "the zone cannot grow by so many bytes",
            Refusal::ShortBuffer => "the second buffer is too short",
            Refusal::NamePresent => "a page has this name",
            Refusal::DirtyPage(name) => return write!(f, "the dirty page {name} would have to go"),
            Refusal::NameAbsent => "no page has this name",
            Refusal::BadLimits => "the limits break a rule",
        };
        f.write_str(text)
    }
}

impl Error for Refusal {}
