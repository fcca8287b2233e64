//! Tests of rpc_handlers, rpc_calls, through their public names.
#![tactic(auto)]

#[cfg(test)]
mod calls;
#[cfg(test)]
mod handlers;
