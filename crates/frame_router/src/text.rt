//! A router in lines of text: first the routes, then what comes from each side and what is handed out.
//! Enter at `route_text`.
mod line;
mod lines;
mod printing;
mod running;

pub use lines::{LinesRefused, route_text};
pub use printing::push_tally;
