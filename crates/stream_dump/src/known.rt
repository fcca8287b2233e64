//! The methods that the program knows.

use crate::MethodName;

/// Those of the services that it serves, and of transfers.
pub(crate) const KNOWN: &[MethodName<'static>] = &[
    MethodName {
        service: b"demo.Demo",
        method: b"Echo",
    },
    MethodName {
        service: b"demo.Demo",
        method: b"Count",
    },
    MethodName {
        service: b"demo.Demo",
        method: b"Sum",
    },
    MethodName {
        service: b"demo.Demo",
        method: b"Chat",
    },
    MethodName {
        service: b"demo.Log",
        method: b"Text",
    },
    MethodName {
        service: b"pw.transfer.Transfer",
        method: b"Read",
    },
    MethodName {
        service: b"pw.transfer.Transfer",
        method: b"Write",
    },
];
