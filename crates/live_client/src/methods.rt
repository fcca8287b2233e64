//! The methods that a live client calls, and what its table knows of them.
ghost use Rattle.std.specs.Prelude.{◌≡◌, [], ◌∷◌, IfOk};
ghost use Rattle.live_client.specs.Ask.{call_method, count_method, read_method, write_method};

use crate::ask::Opening;
use demo_services::ids::{COUNT, DEMO, READ, TRANSFER, WRITE};
use rpc_ids::{AddRefused, Kind, MethodRef, Registry};
use std::alloc::{AllocError, Global};

/// Read of pw.transfer.Transfer.
pub(crate) const READING: MethodRef = MethodRef {
    service: TRANSFER,
    method: READ,
    kind: Kind::Bidi,
    ticks: true,
};

/// Write of pw.transfer.Transfer.
pub(crate) const WRITING: MethodRef = MethodRef {
    service: TRANSFER,
    method: WRITE,
    kind: Kind::Bidi,
    ticks: true,
};

/// Count of demo.Demo.
pub(crate) const COUNTING: MethodRef = MethodRef {
    service: DEMO,
    method: COUNT,
    kind: Kind::ServerStream,
    ticks: false,
};

/// The method that is called.
pub(crate) fn named(opening: &Opening) -> MethodRef
    ensures { result ≡ call_method opening.now.service opening.now.method opening.now.kind }
{
    MethodRef {
        service: opening.service,
        method: opening.method,
        kind: opening.kind,
        ticks: false,
    }
}

/// The registry of Read alone.
pub(crate) fn with_read(alloc: Global) -> Result<Registry, AllocError>
    ensures { IfOk result (λ registry. registry ≡ read_method ∷ []) }
{
    alone(alloc, READING)
}

/// The registry of Write alone.
pub(crate) fn with_write(alloc: Global) -> Result<Registry, AllocError>
    ensures { IfOk result (λ registry. registry ≡ write_method ∷ []) }
{
    alone(alloc, WRITING)
}

/// The registry of Count alone.
pub(crate) fn with_count(alloc: Global) -> Result<Registry, AllocError>
    ensures { IfOk result (λ registry. registry ≡ count_method ∷ []) }
{
    alone(alloc, COUNTING)
}

/// The registry of one method.
pub(crate) fn alone(alloc: Global, method: MethodRef) -> Result<Registry, AllocError>
    ensures { IfOk result (λ registry. registry ≡ method ∷ []) }
{
    let mut registry = Registry::new(alloc);
    match registry.insert(method) {
        Ok(()) => Ok(registry),
        Err(AddRefused::Memory) => Err(AllocError),
        Err(AddRefused::Clash) => unreachable!(),
    }
}
