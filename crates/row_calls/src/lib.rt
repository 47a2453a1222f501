// The table of superblocks lent as a row of records and edited there. The functions on the row are thin: covered functions decide, on a table
// by value, and these carry the records.
#![tactic(auto)]

ghost use Rattle.std.specs.Prelude.{◌≡◌};
ghost use Rattle.call_rules.specs.Answers.{HasNumberAndValuesOf, PassesIfAccepted, MovesAtMost};
ghost use Rattle.call_rules.specs.Calls.{call_with, most_moves};
ghost use Rattle.row_rules.specs.Row.{state_of, row_after, setup_on, call_on, row_setup, row_call};
ghost use Rattle.row_by_value.specs.Tables.{is_accepted, row_after_call};

use call_header::CallHeader;
use call_rules::Outcome;
use heap_rules::{Setup, Superblock, TABLE_LENGTH};
use refusal_rules::Refusal;
use row_by_value::{TableCall, row_first_refusal};
use row_rules::{Control, RowAnswer};

// ---- on a table by value. The row's length is a number among the arguments, and the table that is to be stored in the row is handed back: a
// refused call stores nothing.

// A setup where n records are lent.
fn setup_table(
    n: usize,
    table: [Superblock; TABLE_LENGTH],
    order: &mut [u16],
    u: Setup,
) -> TableCall
    ensures order_after { row_after_call result order.new ≡ setup_on n u table order.old }
    ensures number_and_values { HasNumberAndValuesOf result.answer.outcome (setup_on n u table order.old).outcome }
    ensures passes { PassesIfAccepted result.answer.outcome (state_of result.answer.control result.table) order.new }
{
    match row_first_refusal(n, order, u) {
        Err(fault) => {
            let refusal = fault.refusal(Refusal::SetupOutOfLimits);
            let zeros = row_by_value::control_of(call_states::no_state());
            row_by_value::refuse(refusal.number(), zeros, table)
        }
        Ok(()) => row_by_value::answered(engine_state::setup(u, order)),
    }
}

// A take, a free, plain or named, or a drop, where n records are lent. Only a drop reads the addresses.
fn call_table(
    n: usize,
    table: [Superblock; TABLE_LENGTH],
    order: &mut [u16],
    control: Control,
    call: CallHeader,
    addresses: &[u32],
) -> TableCall
    ensures order_after { row_after_call result order.new ≡ call_on n control table order.old (call_with call addresses.now) }
    ensures number_and_values { HasNumberAndValuesOf result.answer.outcome (call_on n control table order.old (call_with call addresses.now)).outcome }
    ensures passes { PassesIfAccepted result.answer.outcome (state_of result.answer.control result.table) order.new }
    ensures moves { MovesAtMost (most_moves control.setup.q (call_with call addresses.now)) result.answer.outcome }
{
    match row_first_refusal(n, order, control.setup) {
        Err(fault) => {
            let refusal = fault.refusal(Refusal::StateInvalid);
            row_by_value::refuse(refusal.number(), control, table)
        }
        Ok(()) => {
            let s = row_by_value::state_of(control, table);
            row_by_value::answered(engine_state::call_state(s, order, call, addresses))
        }
    }
}

// ---- on a lent row

// A take, a free, plain or named, or a drop on the row, whatever its length. A refused one writes no record. Only a drop
// reads the addresses.
pub fn call_row(
    row: &mut [Superblock],
    order: &mut [u16],
    control: Control,
    call: CallHeader,
    addresses: &[u32],
) -> RowAnswer
    ensures order_after { row_after result row.new order.new ≡ row_call control row.old order.old
        (call_with call addresses.now) }
    ensures number_and_values { HasNumberAndValuesOf result.outcome (row_call control row.old order.old (call_with call addresses.now)).outcome }
    ensures passes { PassesIfAccepted result.outcome (state_of result.control row.new) order.new }
    ensures moves { MovesAtMost (most_moves control.setup.q (call_with call addresses.now)) result.outcome }
{
    let t = row_access::load(row);
    let called = call_table(row.len(), t, order, control, call, addresses);
    row_access::store(row, called.table, is_accepted(called.answer.outcome));
    called.answer
}

// A setup on the row, whatever its length. A refused one writes no record.
pub fn setup_row(row: &mut [Superblock], order: &mut [u16], u: Setup) -> RowAnswer
    ensures order_after { row_after result row.new order.new ≡ row_setup u row.old order.old }
    ensures number_and_values { HasNumberAndValuesOf result.outcome (row_setup u row.old order.old).outcome }
    ensures passes { PassesIfAccepted result.outcome (state_of result.control row.new) order.new }
{
    let t = row_access::load(row);
    let called = setup_table(row.len(), t, order, u);
    row_access::store(row, called.table, is_accepted(called.answer.outcome));
    called.answer
}

// The call was accepted, so that its table is to be stored.
#[tactic(auto, unfolding(call_rules::specs::Answers::number_of))]
fn is_accepted(outcome: Outcome) -> bool
    ensures { result ≡ is_accepted outcome }
{
    call_outcomes::number_of(outcome) == 0
}
