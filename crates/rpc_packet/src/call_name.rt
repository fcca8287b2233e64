/// What names a call: the packets with one `CallName` belong to one call at a time.
#[derive(Clone, Copy, Debug, PartialEq, Eq, PartialOrd, Ord, Hash)]
pub struct CallName {
    pub channel: u32,
    /// The hash of the service's full name.
    pub service: u32,
    /// The hash of the method's name within its service.
    pub method: u32,
    /// Chosen by the client. Every number is an ordinary call id, 0 and 4,294,967,295 too.
    pub call: u32,
}
