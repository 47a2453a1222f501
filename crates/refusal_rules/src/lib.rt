// The refusals. specs/Refusals.antt has their numbers, and the words for when each is given.
#![tactic(auto)]

ghost use Rattle.std.specs.Prelude.{◌≡◌};
ghost use Rattle.refusal_rules.specs.RefusalNumbers.{number_of};

// Why a call, or a command of a record, is refused.
#[derive(Clone, Copy, PartialEq, Eq, Debug)]
pub enum Refusal {
    // A setup number outside its limits.
    SetupOutOfLimits = 1,
    // Processor 0 or above P.
    NoSuchProcessor = 2,
    // A size that no block can have.
    SizeTooLarge = 3,
    // None of the places of a take offers a superblock.
    NoSuperblock = 4,
    // An address past the superblocks, or in an unused one.
    AddressUnmapped = 5,
    // An address at which no block starts.
    AddressMisaligned = 6,
    // The block at the address is not live.
    BlockNotLive = 7,
    // An unknown command byte.
    UnknownCommand = 8,
    // The record ends inside a command.
    CommandTruncated = 9,
    // A command that stands where it may not.
    CommandMisplaced = 10,
    // A record that is too long.
    RecordTooLong = 11,
    // Too few order places lent.
    StorageTooSmall = 12,
    // The state fails its check.
    StateInvalid = 13,
    // A name that is held, or none.
    NameUnavailable = 14,
    // A name that is not held.
    NameNotHeld = 15,
    // A drop of no address.
    DropEmpty = 16,
    // No run of superblocks for a long size.
    NoRun = 17,
}

impl Refusal {
    // Its number on the page.
    pub fn number(self) -> u8
        ensures { result ≡ number_of self }
    {
        self as u8
    }
}
