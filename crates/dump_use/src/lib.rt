//! Tests of stream_dump through its public names.
#![tactic(auto)]

#[cfg(test)]
mod rows;
#[cfg(test)]
mod words;
