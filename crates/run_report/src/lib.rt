//! The texts of a run: what the program writes of a stream that was served.
//!
//! Each is made whole from what the run left: the counts of the stream, the table of calls, and the items that went out.
//! `report_text` tells all of it in order, `crew_text` tells the items call by call, and `connection_text` leaves them out.
//! `frame_bytes` gives the frames alone, as they stand on the link, `load_text` the totals of a generated stream, `live_text` what
//! came of a client's transfer or watch, and `call_text` what came of its call.
//! Nothing here writes to a device.
#![tactic(auto)]

mod call_report;
mod connection_report;
mod crew_report;
mod items;
mod items_by_call;
mod lines;
mod live_report;
mod load;
mod report;
mod totals;
mod uploads;

pub use call_report::call_text;
pub use connection_report::connection_text;
pub use crew_report::crew_text;
pub use items::frame_bytes;
pub use live_report::{LiveLine, live_line, live_text};
pub use load::load_text;
pub use report::{last_line, report_text};
