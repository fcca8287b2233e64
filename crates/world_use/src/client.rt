//! A client and a server of a world, with the link between them.

mod calls;
mod desk;
mod transfers;
