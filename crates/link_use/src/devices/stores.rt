//! Stores: the same uploads in memory and over real files, and calls that fail.

ghost use Rattle.std.specs.Prelude.{◌≡◌, [], ◌∷◌, IfOk};

use super::places::{fill, holds, path_of};
use bytes::Bytes;
use link_io::{FolderStore, Fulls, MemStore, Shelf, Store, StoreKey, StoreRefused};
use std::alloc::Global;
use std::fs;
use std::process::Abort;
use std::test::Fail;

fn key(call: u32, session: u32) -> StoreKey {
    StoreKey { call, session }
}

fn one(alloc: Global, resource: u32, bytes: &[u8]) -> Result<Fulls, StoreRefused>
    ensures { IfOk result (λ rows. rows ≡ (resource, bytes.now) ∷ []) }
{
    let mut rows = Fulls::new(alloc);
    rows.push((resource, Bytes::copy_from_slice(alloc, bytes)?))?;
    Ok(rows)
}

// A call of a store, by the call and the session that make it; bytes are appended one at a time.
#[derive(Clone, Copy)]
enum Step {
    Begin(u32, u32, u32, u64),
    Append(u32, u32, u8),
    Commit(u32, u32),
    Leave(u32, u32),
    LeaveCall(u32),
}

fn take_step<S: Store>(alloc: Global, store: &mut S, step: Step) -> Result<(), StoreRefused> {
    match step {
        Step::Begin(call, session, resource, offset) => {
            store.begin(key(call, session), resource, offset)
        }
        Step::Append(call, session, byte) => {
            let bytes = Bytes::copy_from_slice(alloc, &[byte])?;
            store.append(key(call, session), &bytes)
        }
        Step::Commit(call, session) => store.commit(key(call, session)),
        Step::Leave(call, session) => store.leave(key(call, session)),
        Step::LeaveCall(call) => store.leave_call(call),
    }
}

const UPLOADS: &[Step] = &[
    // Two of the three bytes left and one more are left over; without a byte appended that stays.
    Step::Begin(0, 1, 7, 2),
    Step::Append(0, 1, 8),
    Step::Leave(0, 1),
    Step::Begin(0, 1, 7, 1),
    Step::Leave(0, 1),
    // Before the offset 9 there are three bytes.
    Step::Begin(0, 2, 7, 9),
    Step::Append(0, 2, 5),
    Step::Commit(0, 2),
    // The later session of a call stays, another call's goes on, and a key without an upload changes nothing.
    Step::Begin(1, 4, 5, 0),
    Step::Append(1, 4, 4),
    Step::Append(1, 4, 4),
    Step::Begin(1, 3, 5, 0),
    Step::Append(1, 3, 3),
    Step::Begin(2, 1, 6, 0),
    Step::Append(2, 1, 2),
    Step::LeaveCall(1),
    Step::Append(1, 4, 1),
    Step::Commit(1, 4),
    Step::Leave(1, 3),
];

// Uploads to a store that has resource 9 whole, and the bytes 1, 2, 3 left of resource 7.
fn uploads<S: Store>(alloc: Global, store: &mut S) -> Result<Shelf, StoreRefused> {
    for step in UPLOADS {
        take_step(alloc, store, *step)?;
    }
    store.list()
}

fn is_full(rt: &impl Abort, shelf: &Shelf, resource: u32, want: Option<&[u8]>) {
    let full = match shelf.full.get(resource) {
        Some(bytes) => Some(bytes.as_slice()),
        None => None,
    };
    assert_eq!(rt; full, want, "resource {resource}");
}

fn is_left(rt: &impl Abort, shelf: &Shelf, resource: u32, want: Option<u64>) {
    assert_eq!(rt; shelf.left.get(resource), want, "resource {resource}");
}

// So many resources are whole, and this is left of others.
fn shelf_has(rt: &impl Abort, shelf: &Shelf, full: usize, left: &[(u32, u64)]) {
    assert_eq!(rt; shelf.full.as_slice().len(), full);
    assert_eq!(rt; shelf.left.as_slice(), left);
}

fn check_shelf(rt: &impl Abort, shelf: &Shelf) {
    is_full(rt, shelf, 5, None);
    is_full(rt, shelf, 7, Some(&[1, 2, 8, 5]));
    is_full(rt, shelf, 9, Some(&[9]));
    shelf_has(rt, shelf, 2, &[(5, 2)]);
    is_left(rt, shelf, 5, Some(2));
    is_left(rt, shelf, 7, None);
}

fn cannot_list<S: Store>(rt: &impl Abort, store: &mut S) {
    assert!(rt; matches!(store.list(), Err(StoreRefused::Failed)));
}

// The uploads to this store end as they should.
fn uploads_end<R: AllocGlobal + Abort, S: Store>(rt: &R, store: &mut S) -> Result<(), Fail> {
    let shelf = uploads(rt.alloc(), store)?;
    check_shelf(rt, &shelf);
    Ok(())
}

// What a store in memory has of a resource.
fn is_kept(rt: &impl Abort, kept: Option<&Bytes>, want: Option<&[u8]>) {
    assert_eq!(rt; kept.map(Bytes::as_slice), want);
}

#[test]
fn uploads_end_in_memory(rt: HostRuntime) -> Result<(), Fail> {
    let alloc = rt.alloc();
    let full = one(alloc, 9, &[9])?;
    let left = one(alloc, 7, &[1, 2, 3])?;
    let mut store = MemStore::new(alloc, full, left, Vec::new(alloc))?;
    uploads_end(&rt, &mut store)?;
    is_kept(&rt, store.left(5), Some(&[4, 4]));
    is_kept(&rt, store.full(5), None);
    Ok(())
}

fn steps_so<S: Store>(
    rt: &impl Abort,
    alloc: Global,
    store: &mut S,
    step: Step,
    want: Result<(), StoreRefused>,
) {
    assert_eq!(rt; take_step(alloc, store, step), want);
}

const ONE_UPLOAD: &[Step] = &[
    Step::Begin(0, 1, 7, 0),
    Step::Append(0, 1, 8),
    Step::Commit(0, 1),
];

#[test]
fn a_call_that_fails_changes_nothing(rt: HostRuntime) -> Result<(), Fail> {
    let alloc = rt.alloc();
    let fails = Vec::from_slice(alloc, &[1, 3, 5, 7])?;
    let mut store = MemStore::new(alloc, Fulls::new(alloc), Fulls::new(alloc), fails)?;
    for step in ONE_UPLOAD {
        let failed = Err(StoreRefused::Failed);
        steps_so(&rt, alloc, &mut store, *step, failed);
        steps_so(&rt, alloc, &mut store, *step, Ok(()));
    }
    cannot_list(&rt, &mut store);
    is_kept(&rt, store.full(7), Some(&[8]));
    Ok(())
}

const FILES: &[(&str, &[u8])] = &[
    ("full-9", &[9]),
    ("left-7", &[1, 2, 3]),
    ("full-09", &[0]),
    ("other", &[0]),
];

#[test]
fn uploads_end_in_a_folder(rt: HostRuntime) -> Result<(), Fail> {
    let folder = path_of(&rt, "link-io-store")?;
    let mut store = FolderStore::new(rt.alloc(), &rt, &folder)?;
    // The folder isn't there yet.
    cannot_list(&rt, &mut store);
    fill(&rt, &folder, FILES)?;
    uploads_end(&rt, &mut store)?;
    holds(&rt, &folder, "left-5", Some(&[4, 4]))?;
    fs::remove_dir_all(&rt, &folder)?;
    Ok(())
}
