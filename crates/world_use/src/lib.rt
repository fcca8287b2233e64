//! Tests of link_world, of its two ends and of a lossy link, through their public names.
#![tactic(auto)]

#[cfg(test)]
mod checks;
#[cfg(test)]
mod client;
#[cfg(test)]
mod links;
#[cfg(test)]
mod server;
#[cfg(test)]
mod worlds;
