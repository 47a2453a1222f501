// Rows lent from the front of a local array, for callers with plain values: no reference to a record is needed to call these.
#![tactic(auto)]

ghost use Rattle.std.specs.Prelude.{◌≡◌, take};
ghost use Rattle.call_rules.specs.Answers.{HasNumberAndValuesOf, PassesIfAccepted, MovesAtMost};
ghost use Rattle.call_rules.specs.Calls.{call_with, most_moves};
ghost use Rattle.row_rules.specs.Row.{state_of, row_setup, row_call};
ghost use Rattle.row_rules.specs.Borrowed.{RecordsAfter, records_after};

use call_header::CallHeader;
use heap_rules::{Setup, Superblock};
use row_rules::{Control, RECORD_COUNT, RecordsAnswer};

// A take, a free, plain or named, or a drop on a row of the first n records, of all 65 where n is above. Only a drop reads the
// addresses.
pub fn call_by_row(
    n: usize,
    mut records: [Superblock; RECORD_COUNT],
    order: &mut [u16],
    control: Control,
    call: CallHeader,
    addresses: &[u32],
) -> RecordsAnswer
    ensures order_after { record { returned = result; order = order.new } ≡ records_after n records
        (row_call control (take n records) order.old (call_with call addresses.now)) }
    ensures number_and_values { HasNumberAndValuesOf result.answer.outcome
        (row_call control (take n records) order.old (call_with call addresses.now)).outcome }
    ensures passes { PassesIfAccepted result.answer.outcome (state_of result.answer.control (take n result.records)) order.new }
    ensures moves { MovesAtMost (most_moves control.setup.q (call_with call addresses.now)) result.answer.outcome }
{
    let lent = n.min(RECORD_COUNT);
    let answer = row_calls::call_row(&mut records[..lent], order, control, call, addresses);
    RecordsAnswer { records, answer }
}

// A setup on a row of the first n records, of all 65 where n is above.
pub fn setup_by_row(
    n: usize,
    mut records: [Superblock; RECORD_COUNT],
    order: &mut [u16],
    u: Setup,
) -> RecordsAnswer
    ensures order_after { record { returned = result; order = order.new } ≡ records_after n records (row_setup u (take n records) order.old) }
    ensures number_and_values { HasNumberAndValuesOf result.answer.outcome (row_setup u (take n records) order.old).outcome }
    ensures passes { PassesIfAccepted result.answer.outcome (state_of result.answer.control (take n result.records)) order.new }
{
    let lent = n.min(RECORD_COUNT);
    let answer = row_calls::setup_row(&mut records[..lent], order, u);
    RecordsAnswer { records, answer }
}
