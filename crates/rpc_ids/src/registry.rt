//! The methods that an endpoint knows.
ghost use Rattle.std.specs.Prelude.{◌≡◌, ℕ, ◌↔◌, [], ◌∷◌, ◌++◌, IsSome, IfOk, OnErr, OnOk};
ghost use Rattle.rpc_ids.specs.Names.{name_id};
ghost use Rattle.rpc_ids.specs.Registry.{method_of, has_ids as ids_match, FindsEach};

use crate::method::{Kind, MethodRef};
use crate::name_hash::hash_name;
use std::alloc::Global;
use std::marker::Model;
use thiserror::Error;

/// Why a method wasn't added.
#[derive(Clone, Copy, Debug, PartialEq, Eq, Error)]
pub enum AddRefused {
    /// A method with the same two ids is there.
    #[error("a method with these ids is there")]
    Clash,
    /// There was no memory for the method.
    #[error("out of memory")]
    Memory,
}

/// The methods that an endpoint knows, in the order in which they were added. No two of them have the same ids.
#[derive(Debug, Drop)]
pub struct Registry {
    methods: Vec<MethodRef>,
}

impl Model for Registry {
    ghost use Rattle.std.specs.Prelude.{List};
    ghost use Rattle.rpc_ids.specs.declared.method.MethodRef.{MethodRef};
    ghost use Rattle.rpc_ids.specs.Registry.{FindsEach};

    ghost Value = { List MethodRef };

    ghost view = { λ r. r.methods.items };

    ghost invariant = { λ r. FindsEach r.methods.items };
}

impl Registry {
    /// A registry with no methods. It takes no memory yet.
    pub fn new(alloc: Global) -> Registry
        ensures { result ≡ [] }
    {
        Registry {
            methods: Vec::new(alloc),
        }
    }

    /// Adds a method by its ids, of which no name need be known.
    #[tactic(auto, using(crate::proofs::RegistryLemmas::others_are_found))]
    pub fn insert(&mut self, row: MethodRef) -> Result<(), AddRefused>
        ensures inserted { OnOk result (self.new ≡ self.old ++ row ∷ []) }
        ensures clash { (result ≡ Err AddRefused.Clash) ↔ IsSome (method_of self.old row.service row.method) }
        ensures found { OnOk result (method_of self.new row.service row.method ≡ Some row) }
        ensures others { (s t : ℕ) → IsSome (method_of self.old s t) → method_of self.new s t ≡ method_of self.old s t }
        ensures err { OnErr result (self.new ≡ self.old) }
    {
        if self.find(row.service, row.method).is_some() {
            return Err(AddRefused::Clash);
        }
        match self.methods.push(row) {
            Ok(()) => return Ok(()),
            Err(_) => return Err(AddRefused::Memory),
        }
    }

    /// Adds the method `method` of the service `service`, by the ids of their names.
    pub fn add(
        &mut self,
        service: &[u8],
        method: &[u8],
        kind: Kind,
        ticks: bool,
    ) -> Result<MethodRef, AddRefused>
        ensures added { IfOk result (λ m. self.new ≡ self.old ++ m ∷ []) }
        ensures row { IfOk result (λ m. m ≡ record { service = name_id service.now; method = name_id method.now; kind = kind; ticks = ticks }) }
        ensures clash { (result ≡ Err AddRefused.Clash) ↔ IsSome (method_of self.old (name_id service.now) (name_id method.now)) }
        ensures found { IfOk result (λ m. method_of self.new m.service m.method ≡ Some m) }
        ensures others { (s t : ℕ) → IsSome (method_of self.old s t) → method_of self.new s t ≡ method_of self.old s t }
        ensures err { OnErr result (self.new ≡ self.old) }
    {
        let row = MethodRef {
            service: hash_name(service),
            method: hash_name(method),
            kind,
            ticks,
        };
        self.insert(row)?;
        Ok(row)
    }

    /// The method with these ids, if it was added.
    pub fn find(&self, service: u32, method: u32) -> Option<MethodRef>
        ensures value { result ≡ method_of self.now service method }
        ensures rows { FindsEach self.now }
    {
        self.methods
            .iter()
            .find(|row| has_ids(row, service, method))
            .copied()
    }
}

fn has_ids(row: &MethodRef, service: u32, method: u32) -> bool
    ensures { result ≡ ids_match service method row.now }
{
    row.service == service && row.method == method
}
