// The maker's table by its 32 columns, on flat registers and cells: a column is the opcode's low five bits, a row its top three. What the
// rows of a column read alike stands once, and then a match on the row, or a family's function, tells them apart. PC stands behind the
// opcode.
#![tactic(auto)]

mod accumulator;
mod bits;
mod families;
mod flags;
mod jumps;
mod moves;
mod pairs;
mod shifts;
mod tests;
mod words;

pub use accumulator::{
    column_04, column_05, column_06, column_07, column_08, column_14, column_15, column_16,
    column_17,
};
pub use bits::{column_0a, column_02, column_03, column_12, column_13};
pub use flags::{column_00, column_10};
pub use jumps::{column_0f, column_01, column_1f, column_11};
pub use moves::{column_0d, column_1c, column_1d};
pub use pairs::{column_09, column_18, column_19};
pub use shifts::{column_0b, column_0c, column_1b};
pub use tests::{column_0e, column_1e};
pub use words::column_1a;
