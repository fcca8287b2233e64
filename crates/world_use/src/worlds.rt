//! What is told of the runs of scripts, as texts.

mod desk;
mod frame_limit;
mod journal_limit;
mod losses;
mod plain;
mod repeats;
mod transfers;
