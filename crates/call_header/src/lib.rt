// The header of a call, by itself: the engine, the record's reader, its key and the form of the test program all speak of calls by it, and those
// that read bytes need nothing of the engine's rules.
#![tactic(auto)]

// A call's kind and its numbers: a take or a free, plain or of a block called by name, or a drop of several blocks, whose addresses are lent
// beside it.
#[derive(Clone, Copy)]
pub enum CallHeader {
    Take { processor: u8, size: u16 },
    Free { processor: u8, address: u32 },
    NamedTake { processor: u8, name: u16, size: u16 },
    NamedFree { processor: u8, name: u16 },
    Drop { processor: u8 },
}
