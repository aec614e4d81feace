//! What the contracts leave open: that calls succeed with ample memory, and the host's own files and streams.

use crate::host::{HostSink, HostStore};
use crate::memory::MemStore;
use crate::memory_sink::MemSink;
use crate::outside::{PutFailed, ReadNo, Sink, Store, WriteFailed};
use std::test::Fail;

#[test]
fn listed_and_crowded_calls_fail_in_memory(rt: HostRuntime) -> Result<(), Fail> {
    let alloc = rt.alloc();
    let mut store = MemStore::new(vec![in alloc; 2]?, vec![in alloc; 1, 4]?);
    store.room(alloc, "log", None, 3).unwrap_or(());
    store.room(alloc, "image", Some(b"abcd"), 4).unwrap_or(());
    let first = store.read(alloc, "image", 4);
    assert!(rt; first.is_ok_and(|bytes| bytes.as_slice() == b"abcd".as_slice()));
    assert!(rt; matches!(store.read(alloc, "image", 4), Err(ReadNo::Failed)));
    assert!(rt; matches!(store.read(alloc, "image", 3), Err(ReadNo::TooLong)));
    assert!(rt; matches!(store.read(alloc, "log", 3), Err(ReadNo::Failed)));
    assert!(rt; store.write("log", b"a") == Err(WriteFailed));
    assert!(rt; store.write("log", b"abc") == Ok(()));
    assert!(rt; store.write("log", b"abcd") == Err(WriteFailed));
    assert!(rt; store.write("log", b"") == Err(WriteFailed));
    assert!(rt; store.write("other", b"") == Err(WriteFailed));
    assert!(rt; store.bytes("log") == Some(b"abc"));
    assert!(rt; store.bytes("other").is_none());
    Ok(())
}

#[test]
fn a_listed_put_takes_its_part(rt: HostRuntime) -> Result<(), Fail> {
    let alloc = rt.alloc();
    let Ok(mut sink) = MemSink::new(alloc, 6, vec![in alloc; (2, 1), (2, 3), (4, 9)]?) else {
        return Ok(());
    };
    let wanted = [
        Ok(()),
        Err(PutFailed),
        Ok(()),
        Err(PutFailed),
        Err(PutFailed),
    ];
    for want in wanted {
        assert!(rt; sink.put(b"ab") == want);
    }
    assert!(rt; sink.bytes() == b"abaaba".as_slice());
    Ok(())
}

#[test]
fn the_host_keeps_files_and_tells_missing_ones(rt: HostRuntime) -> Result<(), Fail> {
    let alloc = rt.alloc();
    let mut store = HostStore::new(&rt);
    assert!(rt; store.write("outside.bin", b"kernel") == Ok(()));
    let whole = store.read(alloc, "outside.bin", 6);
    assert!(rt; whole.is_ok_and(|bytes| bytes.as_slice() == b"kernel".as_slice()));
    assert!(rt; matches!(store.read(alloc, "outside.bin", 5), Err(ReadNo::TooLong)));
    assert!(rt;
        matches!(
            store.read(alloc, "missing/outside.bin", 5),
            Err(ReadNo::Failed)
        )
    );
    assert!(rt; store.write("missing/outside.bin", b"") == Err(WriteFailed));
    Ok(())
}

#[test]
fn the_host_takes_bytes(rt: HostRuntime) {
    let mut out = HostSink::new(rt.stdout());
    let mut err = HostSink::new(rt.stderr());
    assert!(rt; out.put(b"put on standard output\n") == Ok(()));
    assert!(rt; err.put(b"put on standard error\n") == Ok(()));
}
