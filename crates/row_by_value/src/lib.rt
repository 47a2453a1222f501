// What a call on a lent row comes to, on a table by value: a refusal before any superblock is looked at, or the engine's answer taken
// apart. The row's length is a number among the arguments.
#![tactic(auto)]

ghost use Rattle.std.specs.Prelude.{◌≡◌, ℕ, ◌<◌};
ghost use Rattle.call_rules.specs.declared.Outcome.TheVariants.{Refused};
ghost use Rattle.call_rules.specs.Answers.{HasNumberAndValuesOf};
ghost use Rattle.row_rules.specs.Row.{state_of, control_of};
ghost use Rattle.row_by_value.specs.RowRefusal.{row_first_refusal, refusal_of_row_fault, number_if_row_fault, number_if_row_fault_of_0};
ghost use Rattle.row_by_value.specs.Tables.{refused_call, answered_call};

use call_rules::{Answer, Outcome};
use check_limits::{SetupFault, setup_refusal};
use heap_rules::{Setup, State, Superblock, TABLE_LENGTH};
use refusal_rules::Refusal;
use row_rules::{Control, RowAnswer};

// What a call on a lent row is refused for before any superblock is looked at.
#[derive(Clone, Copy, PartialEq, Eq, Debug)]
pub enum RowFault {
    // The setup numbers, or the order places lent.
    Setup(SetupFault),
    // A row that is not 64 records long.
    Length,
}

impl From<SetupFault> for RowFault {
    ghost use Rattle.row_by_value.specs.declared.RowFault.TheVariants.{Setup};

    ghost from_gives = { λ fault r. r ≡ Setup fault };

    fn from(fault: SetupFault) -> RowFault {
        RowFault::Setup(fault)
    }
}

impl RowFault {
    // As a refusal, where setup numbers outside their limits are refused so.
    pub fn refusal(self, numbers: Refusal) -> Refusal
        ensures { result ≡ refusal_of_row_fault numbers self }
    {
        match self {
            RowFault::Setup(fault) => fault.refusal(numbers),
            RowFault::Length => Refusal::StateInvalid,
        }
    }
}

// What is to be stored in the row where the call was accepted, and the answer.
#[derive(Clone, Copy)]
pub struct TableCall {
    pub table: [Superblock; TABLE_LENGTH],
    pub answer: RowAnswer,
}

// The state that a control and a table make.
pub fn state_of(control: Control, table: [Superblock; TABLE_LENGTH]) -> State
    ensures { result ≡ state_of control table }
{
    let Control {
        setup,
        names,
        totals,
    } = control;
    State {
        setup,
        table,
        names,
        totals,
    }
}

// All of a state but its table. No `From`: both types are other crates'.
pub fn control_of(s: State) -> Control
    ensures { result ≡ control_of s }
{
    let State {
        setup,
        names,
        totals,
        ..
    } = s;
    Control {
        setup,
        names,
        totals,
    }
}

// The refusals before any superblock is looked at: a setup's, then the row's length.
pub fn row_first_refusal(n: usize, order: &[u16], u: Setup) -> Result<(), RowFault>
    ensures number { (numbers : ℕ) → 0 < numbers → number_if_row_fault numbers result ≡ row_first_refusal numbers n order.now u }
    ensures number_of_0 { number_if_row_fault_of_0 n result ≡ row_first_refusal 0 n order.now u }
{
    setup_refusal(u, order)?;
    if n == TABLE_LENGTH {
        Ok(())
    } else {
        Err(RowFault::Length)
    }
}

// A refusal, with the control and the table as they are to be.
pub fn refuse(number: u8, control: Control, table: [Superblock; TABLE_LENGTH]) -> TableCall
    ensures value { result ≡ refused_call number control table }
    ensures number_and_values { HasNumberAndValuesOf result.answer.outcome (Refused number) }
{
    TableCall {
        table,
        answer: RowAnswer {
            outcome: Outcome::Refused(number),
            control,
        },
    }
}

// The engine's answer, its state taken apart.
pub fn answered(a: Answer) -> TableCall
    ensures value { result ≡ answered_call a }
    ensures number_and_values { HasNumberAndValuesOf result.answer.outcome a.outcome }
{
    let table = a.state.table;
    TableCall {
        table,
        answer: RowAnswer {
            outcome: a.outcome,
            control: control_of(a.state),
        },
    }
}
