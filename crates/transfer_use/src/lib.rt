//! Tests of transfer_chunk, transfer_sender, transfer_receiver, transfer_words, transfer_resume, demo_services, through their public names.
#![tactic(auto)]

#[cfg(test)]
mod chunks;
#[cfg(test)]
mod receiver;
#[cfg(test)]
mod sender;
#[cfg(test)]
mod services;
#[cfg(test)]
mod sessions;
#[cfg(test)]
mod words;
