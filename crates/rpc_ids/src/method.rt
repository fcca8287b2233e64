//! Methods as packets name them.

/// Which sides of a method stream.
#[derive(Clone, Copy, Debug, PartialEq, Eq, Hash)]
pub enum Kind {
    /// One request and one response.
    Unary,
    /// One request, a stream of responses.
    ServerStream,
    /// A stream of requests, one response.
    ClientStream,
    /// A stream of requests and a stream of responses.
    Bidi,
}

/// Which end of a link an endpoint is.
#[derive(Clone, Copy, Debug, PartialEq, Eq, Hash)]
pub enum Role {
    /// The end that answers calls.
    Server,
    /// The end that invokes calls.
    Client,
}

/// A method as an endpoint knows it: the two ids that packets carry, and how its calls go.
#[derive(Clone, Copy, Debug, PartialEq, Eq, Hash)]
pub struct MethodRef {
    /// The id of the service's full name, as `demo.Demo`.
    pub service: u32,
    /// The id of the method's bare name, as `Echo`.
    pub method: u32,
    /// Which sides stream.
    pub kind: Kind,
    /// Whether live calls of this method are told of the time.
    pub ticks: bool,
}
