// The input of the program `call` (docs/FORMATS.md, "One call"). What its bytes hold is in specs/; the code is that of crates form_call,
// form_layout, form_names, form_totals, form_state and form_lists.
#![tactic(auto)]

use call_header::CallHeader;

// What is asked: a setup, or a call, with how many addresses a drop has, and 0 for any other call.
// No Option of a pair: a setup is a call of its own kind, not the absence of one.
#[derive(Clone, Copy)]
pub enum Request {
    Setup,
    Call { call: CallHeader, count: u16 },
}
