//! What is known of sessions over calm streams: the report of a session, call by call, is that of one thread, so the same for every
//! number of workers; and each generated load is such a stream. It has laws, which are functions that do nothing and promise
//! something of the definitions. Enter at [`laws::calm_sessions_report_alike`].
pub mod laws;
