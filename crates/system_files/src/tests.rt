use crate::file_disk::FileDisk;
use crate::file_shelf::FileShelf;
use crate::out_sink::OutSink;
use cube_values::CallError;
use outside::{FileFault, PutAnswer, Shelf, Sink, read_whole};
use outside_disk::{Disk, Failed};
use std::rt::Files;
use std::test::Fail;
use std::{env, fs};

#[test]
fn a_file_is_read_whole(rt: HostRuntime) -> Result<(), Fail> {
    let path = env::temp_dir(&rt)?.join(rt.alloc(), "cubrick_a_file_is_read_whole")?;
    let name = path.to_str().ok_or("a name in UTF-8")?;
    fs::write(&rt, name, "cube t\n")?;
    let mut shelf = FileShelf::new(&rt);
    let bytes = read_whole(rt.alloc(), &mut shelf, name, 7)
        .ok()
        .ok_or("the file is there")?;
    assert_eq!(rt; bytes.as_slice(), b"cube t\n".as_slice());
    assert!(rt;
        matches!(
            read_whole(rt.alloc(), &mut shelf, name, 6),
            Err(CallError::Fault(FileFault::TooLong { size: 7 }))
        )
    );
    assert_eq!(rt; shelf.faults(), 0);
    fs::remove_file(&rt, name)?;
    assert!(rt;
        matches!(
            read_whole(rt.alloc(), &mut shelf, name, 7),
            Err(CallError::Fault(FileFault::Absent))
        )
    );
    assert_eq!(rt; shelf.faults(), 0);
    Ok(())
}

#[test]
fn output_takes_bytes(rt: HostRuntime) {
    let mut sink = OutSink::new(&rt);
    assert!(rt; matches!(sink.put(b"a line of output\n"), PutAnswer::Took(1..=17)));
    assert!(rt; matches!(sink.put(b""), PutAnswer::Took(0)));
    assert_eq!(rt; sink.faults(), 0);
}

// A file that is made, written over, written past its end, cut and synced.
fn is_written<R: Files>(files: &R, name: &str) -> bool {
    let mut disk = FileDisk::new(files);
    disk.size() == Err(Failed)
        && disk.choose(name) == Ok(())
        && disk.size() == Ok(0)
        && disk.write_at(0, b"a round of bytes") == Ok(())
        && disk.write_at(2, b"ROUND") == Ok(())
        && disk.size() == Ok(16)
        && disk.cut(7) == Ok(())
        && disk.write_at(7, b"s") == Ok(())
        && disk.sync() == Ok(())
        && disk.size() == Ok(8)
        && disk.faults() == 1
}

// A file that is there, with these bytes.
fn is_kept<R: Files>(files: &R, name: &str, bytes: &[u8; 8]) -> bool {
    let mut disk = FileDisk::new(files);
    let mut into = [0; 8];
    disk.choose(name) == Ok(())
        && disk.size() == Ok(8)
        && disk.read(0, &mut into) == Ok(8)
        && into == *bytes
        && disk.read(6, &mut into) == Ok(2)
        && into[..2] == bytes[6..]
        && disk.read(8, &mut into) == Ok(0)
        && disk.faults() == 0
}

#[test]
fn a_disk_keeps_what_is_written(rt: HostRuntime) -> Result<(), Fail> {
    let path = env::temp_dir(&rt)?.join(rt.alloc(), "cubrick_a_disk_keeps_what_is_written")?;
    let name = path.to_str().ok_or("a name in UTF-8")?;
    let _ = fs::remove_file(&rt, name);
    assert!(rt; is_written(&rt, name));
    assert!(rt; is_kept(&rt, name, b"a ROUNDs"));
    fs::remove_file(&rt, name)?;
    Ok(())
}
