//! The world of `link` and its laws: two ends on one thread over a link that loses, repeats, keeps back and damages frames
//! by a script. [`world`] has the definitions, which run nothing: what a body that runs a script is held to.
//!
//! What all this is for stands in three modules: [`okay_means_bytes`] with [`transfers_fit`] (a line with OK tells of bytes that
//! are in the store), [`lossless_scripts`] (where nothing is lost each transfer ends well), [`dropped_scripts`] (it ends well
//! although chunks are dropped, where one of its first four rounds loses none). The others are the steps to these.
//! Each law is a function that does nothing and promises something of the definitions.
#![tactic(auto)]

pub mod dropped_scripts;
pub mod dropped_transfer;
pub mod lossless_scripts;
pub mod lossless_transfer;
pub mod okay_means_bytes;
pub mod one_run;
pub mod plain_calls;
pub mod rounds;
pub mod transfer_calls;
pub mod transfers_fit;
pub mod uploads;
pub mod world;
