//! What tasks say and do, by what comes and as time goes on.
mod desk;
mod reads;
mod writes;
