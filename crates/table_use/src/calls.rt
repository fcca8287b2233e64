//! Tables at work.

mod both;
mod both_clients;
mod boxed_handlers;
mod claims;
mod client;
mod client_desk;
mod client_steps;
mod closing;
mod desk;
mod journal_limit;
mod letters;
mod limits;
mod many;
mod plain;
mod rows;
mod running;
mod runs;
mod server_steps;
mod steps;
mod taking;
mod threads;
mod turns;
