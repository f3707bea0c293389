//! Tables of calls of the memory forms and of the two loops over them.

use cube_values::CallError;
use outside::{
    FileFault, OutputFault, PutAnswer, ReadAnswer, Shelf, ShelfMemory, Sink, SinkMemory,
    SizeAnswer, put_whole, read_whole,
};
use std::alloc::{AllocError, Global};
use std::test::Fail;

type Outcome = Result<Vec<u8>, CallError<FileFault>>;

fn file(alloc: Global, name: &str, bytes: &[u8]) -> Result<(String, Vec<u8>), AllocError> {
    Ok((
        String::from_str(alloc, name)?,
        Vec::from_slice(alloc, bytes)?,
    ))
}

fn shelf_of(alloc: Global, failing: &[u64]) -> Result<ShelfMemory, AllocError> {
    let files = vec![in alloc;
        file(alloc, "one", b"abcde")?,
        file(alloc, "empty", b"")?,
        file(alloc, "one", b"later")?,
    ]?;
    Ok(ShelfMemory::new(files, Vec::from_slice(alloc, failing)?))
}

fn is_outcome(outcome: &Outcome, want: &Result<&[u8], FileFault>) -> bool {
    match (outcome, want) {
        (Ok(bytes), Ok(want)) => bytes.as_slice() == *want,
        (Err(CallError::Fault(fault)), Err(want)) => fault == want,
        _ => false,
    }
}

// Like a real file: it tells nothing, gives at most two bytes a call, and its size may be wrong.
#[derive(Drop)]
struct SmallPieces {
    bytes: [u8; 5],
    size: u64,
    reads_left: u64,
    faults: u64,
    absences: u64,
}

impl Shelf for SmallPieces {
    ghost use Rattle.std.specs.Prelude.{None};

    ghost told = { λ _. None };

    ghost call_list = { λ _. None };

    ghost fault_count = { λ shelf. shelf.faults };

    ghost absence_count = { λ shelf. shelf.absences };

    fn faults(&self) -> u64 {
        self.faults
    }

    fn size(&mut self, name: &str) -> SizeAnswer {
        if name == "pieces" {
            SizeAnswer::Size(self.size)
        } else {
            self.absences = self.absences.saturating_add(1);
            SizeAnswer::Absent
        }
    }

    fn read(&mut self, _name: &str, at: u64, into: &mut [u8]) -> ReadAnswer {
        if self.reads_left == 0 {
            self.faults = self.faults.saturating_add(1);
            return ReadAnswer::Failed;
        }
        self.reads_left -= 1;
        if at >= 5 {
            return ReadAnswer::Got(0);
        }
        let rest = &self.bytes[at as usize..];
        let n = rest.len().min(into.len()).min(2);
        into[..n].copy_from_slice(&rest[..n]);
        ReadAnswer::Got(n)
    }
}

#[test]
fn a_shelf_in_memory_answers_by_the_table(rt: HostRuntime) -> Result<(), Fail> {
    let mut shelf = shelf_of(rt.alloc(), &[2, 5])?;
    let mut piece = [0; 4];
    assert_eq!(rt; shelf.size("one"), SizeAnswer::Size(5));
    assert_eq!(rt; shelf.size("none"), SizeAnswer::Absent);
    assert_eq!(rt; shelf.size("one"), SizeAnswer::Failed);
    assert_eq!(rt; shelf.read("one", 0, &mut piece), ReadAnswer::Got(4));
    assert_eq!(rt; &piece, b"abcd");
    assert_eq!(rt; shelf.read("none", 0, &mut piece), ReadAnswer::Got(0));
    assert_eq!(rt; shelf.read("one", 0, &mut piece), ReadAnswer::Failed);
    assert_eq!(rt; shelf.read("one", 3, &mut piece), ReadAnswer::Got(2));
    assert_eq!(rt; &piece[..2], b"de".as_slice());
    assert_eq!(rt; shelf.read("one", 5, &mut piece), ReadAnswer::Got(0));
    assert_eq!(rt; shelf.read("one", u64::MAX, &mut piece), ReadAnswer::Got(0));
    assert_eq!(rt; shelf.read("one", 0, &mut piece[..0]), ReadAnswer::Got(0));
    assert_eq!(rt; shelf.size("empty"), SizeAnswer::Size(0));
    assert_eq!(rt; shelf.faults(), 2);
    Ok(())
}

#[test]
fn a_sink_in_memory_answers_by_the_table(rt: HostRuntime) -> Result<(), Fail> {
    let mut sink = SinkMemory::new(rt.alloc(), 4, vec![in rt.alloc(); 1]?)?;
    let table = [
        ("abc", PutAnswer::Took(3)),
        ("d", PutAnswer::Failed),
        ("", PutAnswer::Took(0)),
        ("xyz", PutAnswer::Took(1)),
        ("z", PutAnswer::Failed),
        ("", PutAnswer::Took(0)),
    ];
    for (piece, want) in table {
        assert_eq!(rt; sink.put(piece.as_bytes()), want, "at {piece}");
    }
    assert_eq!(rt; sink.taken(), b"abcx".as_slice());
    assert_eq!(rt; sink.faults(), 2);
    Ok(())
}

#[test]
fn a_file_is_read_whole(rt: HostRuntime) -> Result<(), Fail> {
    let table = [
        ("one", 9, 9, Ok(b"abcde".as_slice())),
        ("one", 5, 9, Ok(b"abcde".as_slice())),
        ("one", 4, 9, Err(FileFault::TooLong { size: 5 })),
        ("none", 0, 9, Err(FileFault::Absent)),
        ("empty", 0, 9, Ok(b"".as_slice())),
        ("one", 9, 0, Err(FileFault::Failed)),
        ("one", 9, 1, Err(FileFault::Failed)),
        ("one", 4, 1, Err(FileFault::TooLong { size: 5 })),
    ];
    for (name, limit, failing, want) in table {
        let mut shelf = shelf_of(rt.alloc(), &[failing])?;
        let outcome = read_whole(rt.alloc(), &mut shelf, name, limit);
        assert!(rt; is_outcome(&outcome, &want), "{name} up to {limit}");
    }
    Ok(())
}

#[test]
fn a_file_is_read_in_pieces(rt: HostRuntime) {
    let table = [
        ("pieces", 5, 3, Ok(b"abcde".as_slice())),
        ("pieces", 3, 9, Ok(b"abc".as_slice())),
        ("pieces", 7, 9, Ok(b"abcde".as_slice())),
        ("pieces", 5, 1, Err(FileFault::Failed)),
        ("pieces", 8, 9, Err(FileFault::TooLong { size: 8 })),
        ("none", 5, 9, Err(FileFault::Absent)),
    ];
    for (name, size, reads_left, want) in table {
        let mut shelf = SmallPieces {
            bytes: *b"abcde",
            size,
            reads_left,
            faults: 0,
            absences: 0,
        };
        let outcome = read_whole(rt.alloc(), &mut shelf, name, 7);
        assert!(rt;
            is_outcome(&outcome, &want),
            "{name} of {size} after {reads_left}"
        );
    }
}

#[test]
fn bytes_are_put_whole(rt: HostRuntime) -> Result<(), Fail> {
    let mut sink = SinkMemory::new(rt.alloc(), 5, Vec::new(rt.alloc()))?;
    assert_eq!(rt; put_whole(&mut sink, b"abc"), Ok(()));
    assert_eq!(rt; put_whole(&mut sink, b""), Ok(()));
    assert_eq!(rt; put_whole(&mut sink, b"defg"), Err(OutputFault));
    assert_eq!(rt; sink.taken(), b"abcde".as_slice());
    assert_eq!(rt; sink.faults(), 1);
    Ok(())
}
