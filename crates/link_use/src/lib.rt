//! Tests of link_io and frame_router, through their public names.
#![tactic(auto)]

#[cfg(test)]
mod bridge;
#[cfg(test)]
mod devices;
#[cfg(test)]
mod router;
#[cfg(test)]
mod routes;
