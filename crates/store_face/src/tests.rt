ghost use Rattle.std.specs.Prelude.{◌≡◌, ◌⊎◌, Ok, Err, true, IfSome};
ghost use Rattle.store_face.specs.State.{Rose};

use crate::{Files, MemStore, RealStore, Store, StoreFault};
use std::fs;
use std::test::Fail;

/// Copies a file of at most so many bytes to another name, in any store.
fn copy<S: Store>(
    store: &mut S,
    from: &str,
    to: &str,
    most: usize,
    buffer: &mut Vec<u8>,
) -> Result<bool, StoreFault>
    ensures copied { result ≡ Ok true → IfSome (S.state store.old).holds (λ before.
        IfSome (S.state store.new).holds (λ now. now to.now ≡ before from.now)) }
    ensures counted { result ≡ Err StoreFault.Failed →
        Rose (S.state store.old).read_faults (S.state store.new).read_faults
        ⊎ Rose (S.state store.old).write_faults (S.state store.new).write_faults }
{
    let whole = store.read_whole(from, most, buffer)?;
    if whole {
        store.write_whole(to, buffer)?;
    }
    Ok(whole)
}

#[test]
fn files_keep_the_last_bytes_of_each_name(rt: HostRuntime) -> Result<(), Fail> {
    let mut files = Files::new(rt.alloc());
    assert!(rt; files.get("job").is_none());
    files.put("job", b"one")?;
    files.put("log", b"two")?;
    files.put("job", b"three")?;
    assert_eq!(rt; files.get("job").ok_or("no job")?, b"three".as_slice());
    assert_eq!(rt; files.get("log").ok_or("no log")?, b"two".as_slice());
    assert!(rt; files.get("lo").is_none());
    Ok(())
}

#[test]
fn memory_gives_back_what_was_written(rt: HostRuntime) -> Result<(), Fail> {
    let mut store = MemStore::new(rt.alloc());
    let mut buffer = b"left over".to_vec(rt.alloc())?;
    store.write("job", b"abc")?;
    store.write("log", b"xy")?;
    assert!(rt; store.read("job", 3, &mut buffer)?);
    assert_eq!(rt; buffer.as_slice(), b"abc".as_slice());
    assert!(rt; store.read("log", 100, &mut buffer)?);
    assert_eq!(rt; buffer.as_slice(), b"xy".as_slice());
    assert!(rt; !store.read("job", 2, &mut buffer)?);
    assert_eq!(rt;
        (store.calls, store.read_faults, store.write_faults),
        (5, 0, 0)
    );
    Ok(())
}

#[test]
fn a_missing_name_is_counted_and_named(rt: HostRuntime) -> Result<(), Fail> {
    let mut store = MemStore::new(rt.alloc());
    let mut buffer = Vec::new(rt.alloc());
    store.write("job", b"abc")?;
    assert_eq!(rt; store.read("jobs", 3, &mut buffer), Err(StoreFault::Failed));
    assert_eq!(rt; (store.read_faults, store.write_faults), (1, 0));
    assert_eq!(rt; store.last.as_slice(), b"jobs".as_slice());
    Ok(())
}

#[test]
fn the_calls_told_to_fail_do(rt: HostRuntime) -> Result<(), Fail> {
    let mut store = MemStore::new(rt.alloc());
    let mut buffer = Vec::new(rt.alloc());
    store.failing = [1, 2].to_vec(rt.alloc())?;
    store.write("job", b"abc")?;
    assert_eq!(rt; store.write("log", b"xy"), Err(StoreFault::Failed));
    assert_eq!(rt; store.last.as_slice(), b"log".as_slice());
    assert!(rt; store.files.get("log").is_none());
    assert_eq!(rt; store.read("job", 3, &mut buffer), Err(StoreFault::Failed));
    assert_eq!(rt; store.last.as_slice(), b"job".as_slice());
    assert!(rt; store.read("job", 3, &mut buffer)?);
    assert_eq!(rt;
        (store.calls, store.read_faults, store.write_faults),
        (4, 1, 1)
    );
    Ok(())
}

#[test]
fn a_count_stands_still_at_its_end(rt: HostRuntime) {
    let mut store = MemStore::new(rt.alloc());
    let mut buffer = Vec::new(rt.alloc());
    store.calls = u64::MAX;
    store.read_faults = u64::MAX;
    assert_eq!(rt; store.read("job", 3, &mut buffer), Err(StoreFault::Failed));
    assert_eq!(rt; (store.calls, store.read_faults), (u64::MAX, u64::MAX));
}

#[test]
fn a_generic_caller_copies_a_file(rt: HostRuntime) -> Result<(), Fail> {
    let mut store = MemStore::new(rt.alloc());
    let mut buffer = Vec::new(rt.alloc());
    store.write("job", b"abc")?;
    assert!(rt; copy(&mut store, "job", "copy", 3, &mut buffer)?);
    assert_eq!(rt;
        store.files.get("copy").ok_or("no copy")?,
        b"abc".as_slice()
    );
    Ok(())
}

#[test]
fn the_system_gives_back_what_was_written(rt: HostRuntime) -> Result<(), Fail> {
    fs::create_dir_all(&rt, "store_face_files")?;
    let mut store = RealStore::new(&rt);
    let mut buffer = Vec::new(rt.alloc());
    store.write_whole("store_face_files/job", b"abc")?;
    assert!(rt;
        copy(
            &mut store,
            "store_face_files/job",
            "store_face_files/copy",
            3,
            &mut buffer
        )?
    );
    assert!(rt; store.read_whole("store_face_files/copy", 3, &mut buffer)?);
    assert_eq!(rt; buffer.as_slice(), b"abc".as_slice());
    assert!(rt; !store.read_whole("store_face_files/job", 2, &mut buffer)?);
    assert_eq!(rt; (store.read_faults, store.write_faults), (0, 0));
    fs::remove_dir_all(&rt, "store_face_files")?;
    Ok(())
}

#[test]
fn the_system_has_no_such_file(rt: HostRuntime) {
    let mut store = RealStore::new(&rt);
    let mut buffer = Vec::new(rt.alloc());
    assert_eq!(rt;
        store.read_whole("store_face_none/job", 3, &mut buffer),
        Err(StoreFault::Failed)
    );
    assert_eq!(rt; (store.read_faults, store.write_faults), (1, 0));
    assert_eq!(rt;
        store.write_whole("store_face_none/log", b"xy"),
        Err(StoreFault::Failed)
    );
    assert_eq!(rt; (store.read_faults, store.write_faults), (1, 1));
    assert_eq!(rt; store.last.as_slice(), b"store_face_none/log".as_slice());
}
