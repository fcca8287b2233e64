//! Lists of entries, each with the number of its maker: the entries of one maker, beginnings of a list,
//! and lists that one maker goes on with. The words stand in `specs/Entries.antt`; `laws` has functions
//! whose contracts are what follows from them, and `examples` has one short list.
#![tactic(auto)]

pub mod examples;
pub mod laws;
