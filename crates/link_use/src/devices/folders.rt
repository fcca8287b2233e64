//! A store over a folder: who holds it, what runs that were killed have left there, and what stands there besides.

use super::places::{fill, holds, path_of};
use bytes::Bytes;
use link_io::{FolderStore, Store, StoreKey, StoreRefused};
use std::fs;
use std::fs::{File, Files};
use std::os::unix::fs::symlink;
use std::process::Abort;
use std::test::Fail;
use std::thread::join;

const FIRST: StoreKey = StoreKey {
    call: 0,
    session: 1,
};

const SECOND: StoreKey = StoreKey {
    call: 0,
    session: 2,
};

// A folder of the test's own with these files.
fn folder_of(rt: &HostRuntime, files: &[(&str, &[u8])]) -> Result<String, Fail> {
    let folder = path_of(rt, "link-io-folder")?;
    fill(rt, &folder, files)?;
    Ok(folder)
}

// What is done with a store, and what is said of it and of its folder.
#[derive(Clone, Copy)]
enum Row<'a> {
    Begins(StoreKey, u32, u64),
    Refuses(StoreKey, u32, u64),
    /// One byte is appended.
    Puts(StoreKey, u8),
    Commits(StoreKey),
    Leaves(StoreKey),
    /// The lengths of whole resources that it lists.
    Full(&'a [(u32, usize)]),
    /// What is left by its list.
    Left(&'a [(u32, u64)]),
    /// What a file of the folder holds, or none where it isn't there.
    Holds(&'a str, Option<&'a [u8]>),
}

fn answers(rt: &impl Abort, answer: Result<(), StoreRefused>, wanted: Result<(), StoreRefused>) {
    assert_eq!(rt; answer, wanted);
}

fn put<R: AllocGlobal, S: Store>(
    rt: &R,
    store: &mut S,
    key: StoreKey,
    byte: u8,
) -> Result<(), StoreRefused> {
    store.append(key, &Bytes::copy_from_slice(rt.alloc(), &[byte])?)
}

fn lists_full<R: AllocGlobal + Abort, S: Store>(
    rt: &R,
    store: &mut S,
    wanted: &[(u32, usize)],
) -> Result<(), Fail> {
    let mut lengths = Vec::new(rt.alloc());
    for (resource, bytes) in store.list()?.full.as_slice() {
        lengths.push((*resource, bytes.len()))?;
    }
    assert_eq!(rt; lengths.as_slice(), wanted);
    Ok(())
}

fn lists_left<S: Store>(rt: &impl Abort, store: &mut S, wanted: &[(u32, u64)]) -> Result<(), Fail> {
    assert_eq!(rt; store.list()?.left.as_slice(), wanted);
    Ok(())
}

fn take_row<R: Files<File = File> + AllocGlobal + Abort, S: Store>(
    rt: &R,
    folder: &str,
    store: &mut S,
    row: Row<'_>,
) -> Result<(), Fail> {
    match row {
        Row::Begins(key, resource, offset) => {
            answers(rt, store.begin(key, resource, offset), Ok(()));
        }
        Row::Refuses(key, resource, offset) => {
            let refused = Err(StoreRefused::Failed);
            answers(rt, store.begin(key, resource, offset), refused);
        }
        Row::Puts(key, byte) => answers(rt, put(rt, store, key, byte), Ok(())),
        Row::Commits(key) => answers(rt, store.commit(key), Ok(())),
        Row::Leaves(key) => answers(rt, store.leave(key), Ok(())),
        Row::Full(wanted) => return lists_full(rt, store, wanted),
        Row::Left(wanted) => return lists_left(rt, store, wanted),
        Row::Holds(name, wanted) => return holds(rt, folder, name, wanted),
    }
    Ok(())
}

fn follow<R: Files<File = File> + AllocGlobal + Abort, S: Store>(
    rt: &R,
    folder: &str,
    store: &mut S,
    rows: &[Row<'_>],
) -> Result<(), Fail> {
    for row in rows {
        take_row(rt, folder, store, *row)?;
    }
    Ok(())
}

// Follows the rows with a store of their own, which is let go then.
fn follow_with_own<R: Files<File = File> + AllocGlobal + Abort>(
    rt: &R,
    folder: &str,
    rows: &[Row<'_>],
) -> Result<(), Fail> {
    let mut store = FolderStore::new(rt.alloc(), rt, folder)?;
    follow(rt, folder, &mut store, rows)
}

const THREE_LEFT: &[(&str, &[u8])] = &[("left-7", &[1, 2, 3])];

const BEGINS: &[Row<'_>] = &[Row::Begins(FIRST, 7, 2)];

const WHILE_ANOTHER_HOLDS: &[Row<'_>] = &[Row::Refuses(FIRST, 7, 3), Row::Left(&[(7, 3)])];

const PUTS: &[Row<'_>] = &[Row::Puts(FIRST, 9)];

const STILL_LEFT: &[Row<'_>] = &[
    Row::Left(&[(7, 3)]),
    Row::Holds("work-0-1-7", Some(&[1, 2, 9])),
];

// A store holds the folder meanwhile, until it is let go.
fn held_by_another<R: Files<File = File> + AllocGlobal + Abort, S: Store>(
    rt: &R,
    folder: &str,
    second: &mut S,
) -> Result<(), Fail> {
    let mut first = FolderStore::new(rt.alloc(), rt, folder)?;
    follow(rt, folder, &mut first, BEGINS)?;
    follow(rt, folder, second, WHILE_ANOTHER_HOLDS)?;
    follow(rt, folder, &mut first, PUTS)?;
    follow(rt, folder, second, STILL_LEFT)
}

// At its end a store leaves what it still has, and the folder is free.
const FREE: &[Row<'_>] = &[
    Row::Holds("work-0-1-7", None),
    Row::Holds("left-7", Some(&[1, 2, 9])),
    Row::Begins(FIRST, 7, 3),
];

#[test]
fn one_store_holds_a_folder(rt: HostRuntime) -> Result<(), Fail> {
    let folder = folder_of(&rt, THREE_LEFT)?;
    let mut store = FolderStore::new(rt.alloc(), &rt, &folder)?;
    held_by_another(&rt, &folder, &mut store)?;
    follow(&rt, &folder, &mut store, FREE)?;
    fs::remove_dir_all(&rt, &folder)?;
    Ok(())
}

// What a run has left that was killed.
const LEFT: &[(&str, &[u8])] = &[
    ("left-7", &[1, 2, 3]),
    ("work-0-1-7", &[1, 2, 3, 4]),
    ("left-8", &[1, 2, 3]),
    ("work-3-2-8", &[9, 9, 9]),
    ("work-4294967295-0-9", &[5]),
    ("work-0-3-10", &[]),
    ("work-0-1", &[6]),
    ("work-0-01-11", &[6]),
];

const TAKEN_UP: &[Row<'_>] = &[
    Row::Left(&[(7, 4), (8, 3), (9, 1)]),
    Row::Holds("left-7", Some(&[1, 2, 3, 4])),
    Row::Holds("work-0-1-7", None),
    Row::Holds("left-8", Some(&[1, 2, 3])),
    Row::Holds("work-3-2-8", None),
    Row::Holds("left-9", Some(&[5])),
    Row::Holds("work-4294967295-0-9", None),
    Row::Holds("work-0-3-10", None),
    // These are no files of a store.
    Row::Holds("work-0-1", Some(&[6])),
    Row::Holds("work-0-01-11", Some(&[6])),
];

#[test]
fn what_a_killed_run_left_is_taken_up(rt: HostRuntime) -> Result<(), Fail> {
    let folder = folder_of(&rt, LEFT)?;
    follow_with_own(&rt, &folder, TAKEN_UP)?;
    fs::remove_dir_all(&rt, &folder)?;
    Ok(())
}

const LISTS: &[Row<'_>] = &[Row::Left(&[(7, 3)])];

const ENDS: &[Row<'_>] = &[Row::Begins(FIRST, 7, 3), Row::Commits(FIRST)];

const LACKS_NOTHING: &[Row<'_>] = &[
    Row::Refuses(FIRST, 7, 3),
    Row::Begins(FIRST, 7, 0),
    Row::Commits(FIRST),
    // What its own uploads have ended it doesn't look for.
    Row::Begins(FIRST, 7, 3),
];

#[test]
fn an_upload_lacks_nothing_that_was_listed(rt: HostRuntime) -> Result<(), Fail> {
    let folder = folder_of(&rt, THREE_LEFT)?;
    let mut store = FolderStore::new(rt.alloc(), &rt, &folder)?;
    follow(&rt, &folder, &mut store, LISTS)?;
    // Another store ends an upload of the resource, so that nothing is left of it.
    follow_with_own(&rt, &folder, ENDS)?;
    follow(&rt, &folder, &mut store, LACKS_NOTHING)?;
    fs::remove_dir_all(&rt, &folder)?;
    Ok(())
}

// What may stand in a folder under the name of a store's file.
#[derive(Clone, Copy)]
enum Thing<'a> {
    Folder,
    LinkTo(&'a str),
    /// A file of so many bytes.
    Long(u64),
}

fn make_thing(rt: &HostRuntime, folder: &str, name: &str, thing: Thing<'_>) -> Result<(), Fail> {
    let path = format!(in rt.alloc(); "{folder}/{name}")?;
    match thing {
        Thing::Folder => fs::create_dir(rt, &path)?,
        Thing::LinkTo(target) => symlink(rt, target, &path)?,
        Thing::Long(length) => File::create(rt, &path)?.set_len(length)?,
    }
    Ok(())
}

const PLAIN_FILES: &[(&str, &[u8])] = &[("full-3", &[1]), ("full-30", &[1, 2]), ("full-04", &[1])];

const THINGS: &[(&str, Thing<'_>)] = &[
    ("full-7", Thing::Folder),
    ("left-7", Thing::Folder),
    ("full-8", Thing::LinkTo("nowhere")),
    ("full-9", Thing::LinkTo("full-9")),
    ("full-10", Thing::LinkTo("full-30")),
    ("full-5", Thing::Long(20_000_000)),
];

// Of a file that is too long one byte more is read than a resource may have.
const PLAIN_FILES_ALONE: &[Row<'_>] = &[
    Row::Full(&[(3, 1), (5, 16_777_217), (10, 2), (30, 2)]),
    Row::Left(&[]),
];

#[test]
fn plain_files_alone_are_listed(rt: HostRuntime) -> Result<(), Fail> {
    let folder = folder_of(&rt, PLAIN_FILES)?;
    for (name, thing) in THINGS {
        make_thing(&rt, &folder, name, *thing)?;
    }
    follow_with_own(&rt, &folder, PLAIN_FILES_ALONE)?;
    fs::remove_dir_all(&rt, &folder)?;
    Ok(())
}

const TWO_UPLOADS: &[Row<'_>] = &[
    Row::Begins(FIRST, 7, 3),
    Row::Begins(SECOND, 7, 0),
    // Nothing is copied before it is needed.
    Row::Holds("work-0-1-7", None),
    Row::Puts(SECOND, 9),
    Row::Commits(SECOND),
    Row::Holds("full-7", Some(&[9])),
    Row::Holds("left-7", None),
    Row::Puts(FIRST, 4),
    Row::Commits(FIRST),
    Row::Holds("full-7", Some(&[1, 2, 3, 4])),
];

#[test]
fn an_upload_keeps_what_was_left_as_it_began(rt: HostRuntime) -> Result<(), Fail> {
    let folder = folder_of(&rt, THREE_LEFT)?;
    follow_with_own(&rt, &folder, TWO_UPLOADS)?;
    fs::remove_dir_all(&rt, &folder)?;
    Ok(())
}

const WITHOUT_BYTES: &[Row<'_>] = &[
    Row::Begins(FIRST, 7, 2),
    Row::Commits(FIRST),
    Row::Holds("full-7", Some(&[1, 2])),
    Row::Holds("left-7", None),
    // An upload that takes the key of another one drops it.
    Row::Begins(FIRST, 8, 0),
    Row::Puts(FIRST, 4),
    Row::Begins(FIRST, 9, 0),
    Row::Holds("work-0-1-8", None),
    Row::Leaves(FIRST),
    Row::Holds("left-9", None),
];

#[test]
fn an_upload_without_bytes_is_what_was_left(rt: HostRuntime) -> Result<(), Fail> {
    let folder = folder_of(&rt, THREE_LEFT)?;
    follow_with_own(&rt, &folder, WITHOUT_BYTES)?;
    fs::remove_dir_all(&rt, &folder)?;
    Ok(())
}

fn is_listed(rt: &impl Abort, listed: bool) {
    assert_eq!(rt; listed, true);
}

#[test]
fn a_store_may_go_to_another_thread(rt: HostRuntime) -> Result<(), Fail> {
    let folder = folder_of(&rt, &[("full-3", &[1])])?;
    let mut store = FolderStore::new(rt.alloc(), &rt, &folder)?;
    let (listed, _) = join(&rt, move || store.list().is_ok(), || ());
    is_listed(&rt, listed);
    fs::remove_dir_all(&rt, &folder)?;
    Ok(())
}
