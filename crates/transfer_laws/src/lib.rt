//! Laws of a transfer's two ends by themselves: what both agree on (`cores`), what each says (`words`), that a transfer over a
//! link that loses nothing ends well (`pairs`), and that it does so where one of its first four rounds loses nothing (`losses`).
//! Each law is a function that does nothing and promises something of the definitions.
#![tactic(auto)]

pub mod cores;
pub mod losses;
pub mod pairs;
pub mod words;
