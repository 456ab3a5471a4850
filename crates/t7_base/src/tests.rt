//! The forms in memory and the real ones, at their calls.

use super::*;
use std::alloc::AllocError;
use std::test::Fail;

// The product file of two securities and two sessions.
const FILE: &str =
    "product,7\nwindow,4\npackets,8\ndatagram,1472\nsecurity,1001,1\nsecurity,1002,1\nsession,21\nsession,22\n";

#[test]
fn reads_a_product(rt: HostRuntime) -> Result<(), Fail> {
    let product = Product::read(rt.alloc(), FILE.as_bytes())?;
    assert_eq!(rt; (product.segment(), product.window()), (7, 4));
    assert_eq!(rt; (product.packets(), product.datagram()), (8, 1472));
    assert_eq!(rt;
        product.securities(),
        [SecurityId(1001), SecurityId(1002)].as_slice()
    );
    assert_eq!(rt; product.ticks(), [1, 1].as_slice());
    assert_eq!(rt;
        product.sessions(),
        [SessionId(21), SessionId(22)].as_slice()
    );
    Ok(())
}

#[test]
fn refuses_with_the_first_fault(rt: HostRuntime) -> Result<(), Fail> {
    let cases: [(&[u8], u32, ProductWhy); 8] = [
        (b"", 1, ProductWhy::Missing),
        (b"product,7\nwindows,4\n", 2, ProductWhy::Key),
        (
            b"product,7\nwindow,4\npackets,8\ndatagram,256\nsession,1\n",
            5,
            ProductWhy::Key,
        ),
        (b"product,7\nwindow,4,5\n", 2, ProductWhy::Columns),
        (b"product,7\r\nwindow,0\r\n", 2, ProductWhy::Number),
        (b"\xef\xbb\xbfproduct,07\n", 1, ProductWhy::Number),
        (
            b"product,7\nwindow,4\npackets,8\ndatagram,256\nsecurity,1,1\nsecurity,1,2",
            6,
            ProductWhy::Duplicate,
        ),
        (
            b"product,7\nwindow,4\npackets,8\ndatagram,256\n\"security\",1,1\n",
            6,
            ProductWhy::Missing,
        ),
    ];
    for case in &cases {
        let (bytes, row, why) = *case;
        match Product::read(rt.alloc(), bytes) {
            Ok(_) => assert!(rt; false, "row {row}"),
            Err(refusal) => assert_eq!(rt; refusal, ProductRefusal::Fault { row, why }),
        }
    }
    Ok(())
}

// Files of one name, with room for so many calls and 8 bytes of names.
fn one_file(rt: &HostRuntime, calls: usize, failing: &[u64]) -> Result<MemoryFiles, AllocError> {
    let alloc = rt.alloc();
    let mut held = Vec::new(alloc);
    let name = String::from_str(alloc, "a")?;
    held.push((name, Octets::new(b"xyz".to_vec(alloc)?)))?;
    MemoryFiles::new(alloc, held, calls, 8, failing.to_vec(alloc)?)
}

#[test]
fn memory_files_fail_where_they_are_told_to(rt: HostRuntime) -> Result<(), Fail> {
    let mut files = one_file(&rt, 4, &[3])?;
    let mut into = Vec::new(rt.alloc());
    assert_eq!(rt; files.take("a", 3, &mut into), Taken::Whole);
    assert_eq!(rt; into.as_slice(), b"xyz".as_slice());
    assert_eq!(rt; files.take("a", 2, &mut into), Taken::TooLong);
    assert_eq!(rt; files.take("a", 3, &mut into), Taken::Failed);
    assert_eq!(rt; files.take("b", 3, &mut into), Taken::Failed);
    Ok(())
}

#[test]
fn memory_files_tell_what_was_asked(rt: HostRuntime) -> Result<(), Fail> {
    let mut files = one_file(&rt, 1, &[])?;
    let mut into = Vec::new(rt.alloc());
    assert_eq!(rt; files.take("b", 3, &mut into), Taken::Failed);
    assert_eq!(rt; files.asked_count(), Some(1));
    assert_eq!(rt; files.asked_at(0), Some(b"b".as_slice()));
    assert_eq!(rt; files.take("a", 3, &mut into), Taken::Failed);
    assert!(rt; files.asked_count().is_none());
    Ok(())
}

#[test]
fn a_memory_sink_fails_where_it_is_told_to(rt: HostRuntime) -> Result<(), Fail> {
    let alloc = rt.alloc();
    let mut sink = MemorySink::new(alloc, 3, 8, [2].to_vec(alloc)?)?;
    assert_eq!(rt; sink.put(b"one"), Ok(()));
    assert_eq!(rt; sink.put(b"two"), Err(Failed));
    assert_eq!(rt; sink.put(b"three"), Ok(()));
    assert_eq!(rt; sink.written().ok_or("untold")?, b"onethree".as_slice());
    assert_eq!(rt; sink.put(b"four"), Err(Failed));
    assert!(rt; sink.written().is_none());
    Ok(())
}

#[test]
fn real_forms_read_and_write(rt: HostRuntime) -> Result<(), Fail> {
    let mut into = Vec::new(rt.alloc());
    let mut files = RealFiles::new(&rt);
    assert_eq!(rt; files.take("/dev/null", 10, &mut into), Taken::Whole);
    assert!(rt; into.is_empty());
    assert_eq!(rt; files.take("/dev/zero", 10, &mut into), Taken::TooLong);
    assert_eq!(rt; files.take("/no/such/file", 10, &mut into), Taken::Failed);
    let mut sink = RealSink::new(&rt);
    assert_eq!(rt; sink.put(b"written\n"), Ok(()));
    Ok(())
}
