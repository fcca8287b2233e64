//! Transfers over a link, script by script: lengths beside each multiple of a chunk over a link that loses nothing, and each loss
//! of each frame of a short transfer, and an older write that tells its end again under a read. All goes through
//! [`link_world::World`]. It has tests alone, apart from those of `link_world`, since its rows are many.
#![tactic(auto)]

#[cfg(test)]
mod tests;
