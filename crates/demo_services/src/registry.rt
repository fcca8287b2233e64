//! The methods of the three services.
ghost use Rattle.std.specs.Prelude.{◌≡◌, ◌++◌, [], ◌∷◌, All, IfOk, OnOk, IsNone};
ghost use Rattle.rpc_ids.specs.Names.{name_id};
ghost use Rattle.rpc_ids.specs.Registry.{method_of};
ghost use Rattle.demo_services.specs.Methods.{demo_id, demo_method, demo_methods, log_id, log_method, transfer_id, transfer_method};

use rpc_ids::{AddRefused, Kind, Registry};
use std::alloc::{AllocError, Global};

/// A registry of seven methods: the four of the service `demo.Demo`, one of each kind, of which none is told of the time;
/// Text of `demo.Log`, which has streams both ways; and Read and Write of `pw.transfer.Transfer`, which have streams both
/// ways and are told of the time.
#[tactic(auto, unfolding(rpc_ids::specs::Names::name_id))]
pub fn demo_registry(alloc: Global) -> Result<Registry, AllocError>
    ensures methods { IfOk result (λ registry. registry ≡ demo_methods) }
    ensures found { IfOk result (λ registry. All (λ m. method_of registry m.service m.method ≡ Some m) demo_methods) }
{
    let mut registry = Registry::new(alloc);
    add(&mut registry, b"Echo", Kind::Unary)?;
    add(&mut registry, b"Count", Kind::ServerStream)?;
    add(&mut registry, b"Sum", Kind::ClientStream)?;
    add(&mut registry, b"Chat", Kind::Bidi)?;
    add_log(&mut registry, b"Text")?;
    add_transfer(&mut registry, b"Read")?;
    add_transfer(&mut registry, b"Write")?;
    Ok(registry)
}

/// Adds a method of the service, which isn't in yet.
fn add(registry: &mut Registry, name: &[u8], kind: Kind) -> Result<(), AllocError>
    requires { IsNone (method_of registry.old demo_id (name_id name.now)) }
    ensures { OnOk result (registry.new ≡ registry.old ++ demo_method name.now kind ∷ []) }
{
    match registry.add(b"demo.Demo", name, kind, false) {
        Ok(_) => Ok(()),
        Err(AddRefused::Memory) => Err(AllocError),
        Err(AddRefused::Clash) => unreachable!(),
    }
}

/// Adds a method of the log service, which isn't in yet.
fn add_log(registry: &mut Registry, name: &[u8]) -> Result<(), AllocError>
    requires { IsNone (method_of registry.old log_id (name_id name.now)) }
    ensures { OnOk result (registry.new ≡ registry.old ++ log_method name.now ∷ []) }
{
    match registry.add(b"demo.Log", name, Kind::Bidi, false) {
        Ok(_) => Ok(()),
        Err(AddRefused::Memory) => Err(AllocError),
        Err(AddRefused::Clash) => unreachable!(),
    }
}

/// Adds a method of the transfer service, which isn't in yet.
fn add_transfer(registry: &mut Registry, name: &[u8]) -> Result<(), AllocError>
    requires { IsNone (method_of registry.old transfer_id (name_id name.now)) }
    ensures { OnOk result (registry.new ≡ registry.old ++ transfer_method name.now ∷ []) }
{
    match registry.add(b"pw.transfer.Transfer", name, Kind::Bidi, true) {
        Ok(_) => Ok(()),
        Err(AddRefused::Memory) => Err(AllocError),
        Err(AddRefused::Clash) => unreachable!(),
    }
}
