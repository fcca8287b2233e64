use rpc_ids::{AddRefused, Kind, MethodRef, Registry, Status, hash_name};
use std::process::Abort;

const HASHES: &[(&[u8], u32)] = &[
    (b"", 0),
    (b"a", 6_363_104),
    (b"ab", 815_990_595),
    (b"Echo", 2_336_689_897),
    (b"demo.Demo", 1_895_062_779),
    (b"Read", 1_534_617_306),
];

fn has_hash(rt: &impl Abort, name: &[u8], id: u32) {
    assert_eq!(rt; hash_name(name), id);
}

#[test]
fn hashes_as_pw_rpc_does(rt: HostRuntime) {
    for (name, id) in HASHES {
        has_hash(&rt, name, *id);
    }
}

const NAMES: &[(u32, &str)] = &[
    (0, "OK"),
    (1, "CANCELLED"),
    (2, "UNKNOWN"),
    (3, "INVALID_ARGUMENT"),
    (4, "DEADLINE_EXCEEDED"),
    (5, "NOT_FOUND"),
    (6, "ALREADY_EXISTS"),
    (7, "PERMISSION_DENIED"),
    (8, "RESOURCE_EXHAUSTED"),
    (9, "FAILED_PRECONDITION"),
    (10, "ABORTED"),
    (11, "OUT_OF_RANGE"),
    (12, "UNIMPLEMENTED"),
    (13, "INTERNAL"),
    (14, "UNAVAILABLE"),
    (15, "DATA_LOSS"),
    (16, "UNAUTHENTICATED"),
];

fn has_name(rt: &impl Abort, number: u32, name: &str) {
    assert_eq!(rt; Status::of(number).name(), name);
}

fn has_number(rt: &impl Abort, of: u32, number: u32) {
    assert_eq!(rt; Status::of(of).number(), number);
}

fn is_status(rt: &impl Abort, number: u32, name: &str) {
    has_name(rt, number, name);
    has_number(rt, number, number);
}

#[test]
fn statuses_have_their_usual_numbers_and_names(rt: HostRuntime) {
    for (number, name) in NAMES {
        is_status(&rt, *number, name);
    }
}

#[test]
fn a_number_above_sixteen_is_unknown(rt: HostRuntime) {
    has_name(&rt, 17, "UNKNOWN");
    has_number(&rt, 17, 2);
    has_name(&rt, 4_294_967_295, "UNKNOWN");
    has_number(&rt, 4_294_967_295, 2);
}

const ECHO: MethodRef = MethodRef {
    service: 1_895_062_779,
    method: 2_336_689_897,
    kind: Kind::Unary,
    ticks: false,
};

fn adds(rt: &impl Abort, registry: &mut Registry, kind: Kind, want: Result<MethodRef, AddRefused>) {
    let ticks = kind == Kind::Bidi;
    assert_eq!(rt; registry.add(b"demo.Demo", b"Echo", kind, ticks), want);
}

fn inserts(rt: &impl Abort, registry: &mut Registry, kind: Kind, want: Result<(), AddRefused>) {
    assert_eq!(rt; registry.insert(MethodRef { kind, ..ECHO }), want);
}

fn finds(rt: &impl Abort, registry: &Registry, method: u32, want: Option<MethodRef>) {
    assert_eq!(rt; registry.find(1_895_062_779, method), want);
}

#[test]
fn a_method_is_added_once(rt: HostRuntime) {
    let mut registry = Registry::new(rt.alloc());
    adds(&rt, &mut registry, Kind::Unary, Ok(ECHO));
    adds(&rt, &mut registry, Kind::Bidi, Err(AddRefused::Clash));
    let read = registry.add(b"pw.transfer.Transfer", b"Read", Kind::Bidi, true);
    assert!(rt; read.is_ok());
    finds(&rt, &registry, 2_336_689_897, Some(ECHO));
    finds(&rt, &registry, 1_534_617_306, None);
}

#[test]
fn a_method_is_inserted_once(rt: HostRuntime) {
    let mut registry = Registry::new(rt.alloc());
    inserts(&rt, &mut registry, Kind::Unary, Ok(()));
    inserts(&rt, &mut registry, Kind::Bidi, Err(AddRefused::Clash));
    adds(&rt, &mut registry, Kind::Unary, Err(AddRefused::Clash));
    finds(&rt, &registry, 2_336_689_897, Some(ECHO));
}
