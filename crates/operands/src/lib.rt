// Where a long run finds what an instruction works on: address modes, the stack and branches, on flat registers and cells. As in the
// definition, operand bytes stand at PC; but no function hands registers back that only PC has moved in: whoever calls moves it.
#![tactic(auto)]

mod addresses;
mod stack;

pub use addresses::{abs_off, branch, d_off, direct, fetch, fetch_u16, idx, idy, read_u16};
pub use stack::{pull, push, push_word, raised};
