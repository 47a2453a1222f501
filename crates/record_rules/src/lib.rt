// The commands of a record. What stands at a position of a record is in specs/.
#![tactic(auto)]

use call_header::CallHeader;

// The bytes of the longest record.
pub const LONGEST_RECORD: usize = 60000;

// A setup with its numbers, a call, or a refusal with its offset. Beside a call's header stands how many addresses a drop has and where the first
// of them stands in the record; 0 and 0 beside the header of any other call.
#[derive(Clone, Copy)]
pub enum Command {
    Setup {
        processors: u8,
        superblocks: u8,
        spare: u8,
        p: u8,
        q: u8,
    },
    Call {
        call: CallHeader,
        count: u8,
        first: u32,
    },
    Refused {
        number: u8,
        offset: u32,
    },
}
