//! What a script of a world with two ends and a lossy link says, and what is reported of its run. It reads no text and
//! has no rule of the world.
//! Enter at [`Script`] and [`Report`]; [`text`] reads and writes them as text, and [`lossy`] is one direction of such a link.
#![tactic(auto)]

mod command;
mod generator;
mod laws;
mod lists;
mod loss;
pub mod lossy;
mod report;
mod script;
mod stock;
pub mod text;

pub use command::{Command, MAX_MESSAGE};
pub use generator::{INCREMENT, MULTIPLIER, next_number};
pub use laws::numbers_of_a_script;
pub use lists::{Commands, Losses, ReportLines, Resources, Stocks};
pub use loss::Loss;
pub use report::{Report, ReportLine};
pub use script::{DEFAULT_CHUNK, DEFAULT_WINDOW, MAX_FULL, Script};
pub use stock::{MAX_STOCK, Stock};
