//! Tables of disk calls, compared with a plain model that keeps the list of calls.

ghost use Rattle.std.specs.Prelude.{◌≤◌, length, IfOk, IfSome};
ghost use Rattle.outside_disk.specs.Memory.{disk_view};
ghost use Rattle.outside_disk.specs.Views.{IsSynced};

use outside::Calls;
use outside_disk::{
    Disk, DiskMemory, Failed, Gate, NoGate, read_disk, replace_from, write_through,
};
use std::alloc::{AllocError, Global};
use std::test::Fail;

#[derive(Clone, Copy, Debug)]
enum Call {
    Choose,
    Size,
    Read,
    Write { at: u64, byte: u8, count: usize },
    Cut { len: u64 },
    Sync,
}

// Each write is of at most four bytes.
const SCRIPT: [Call; 12] = [
    Call::Choose,
    Call::Write {
        at: 1,
        byte: 0x11,
        count: 4,
    },
    Call::Read,
    Call::Sync,
    Call::Size,
    Call::Cut { len: 3 },
    Call::Write {
        at: 3,
        byte: 0x22,
        count: 2,
    },
    Call::Sync,
    Call::Write {
        at: 0,
        byte: 0x33,
        count: 1,
    },
    Call::Cut { len: 2 },
    Call::Read,
    Call::Sync,
];

// How a disk fails.
#[derive(Clone, Copy, Debug)]
struct Failing {
    number: u64,
    stop: Option<u64>,
    room: u64,
}

const NEVER: u64 = 1000;

// What a call wrote into its piece, and whether it succeeded.
type Outcome = (bool, [u8; 4]);

// Does a call with a place not behind the file's end, which a call of `size` says; none where that
// fails.
fn perform(disk: &mut DiskMemory, call: Call) -> Outcome {
    let mut piece = [0; 4];
    let size = match disk.size() {
        Ok(size) => size,
        Err(Failed) => return (false, piece),
    };
    let done = match call {
        Call::Choose => disk.choose("file").is_ok(),
        Call::Size => disk.size().is_ok(),
        Call::Read => disk.read(size.min(1), &mut piece).is_ok(),
        Call::Write { at, byte, count } => {
            let bytes = [byte; 4];
            disk.write_at(at.min(size), &bytes[..count.min(4)]).is_ok()
        }
        Call::Cut { len } => disk.cut(len.min(size)).is_ok(),
        Call::Sync => disk.sync().is_ok(),
    };
    (done, piece)
}

// The model: the bytes, each with whether it is settled.
#[derive(Drop)]
struct PlainDisk {
    bytes: Vec<(u8, bool)>,
    room: u64,
    calls: u64,
    faults: u64,
    last: Outcome,
}

impl PlainDisk {
    // Whether the next call succeeds, which is then counted.
    fn succeeds(&mut self, failing: Failing, cost: u64) -> bool {
        let stopped = match failing.stop {
            None => false,
            Some(stop) => stop <= self.calls,
        };
        let fails = stopped || self.calls == failing.number || self.room < cost;
        self.calls = self.calls.saturating_add(1);
        if fails {
            self.faults = self.faults.saturating_add(1);
        }
        !fails
    }

    // A call that uses up room: whether it has that, and whether it succeeds.
    fn takes(&mut self, failing: Failing, cost: u64) -> (bool, bool) {
        let fits = cost <= self.room;
        let succeeds = self.succeeds(failing, cost);
        if fits {
            self.room = self.room.saturating_sub(cost);
        }
        (fits, succeeds)
    }

    fn put(&mut self, at: usize, byte: u8) -> Result<(), AllocError> {
        if at < self.bytes.len() {
            self.bytes[at] = (byte, false);
            Ok(())
        } else {
            Ok(self.bytes.push((byte, false))?)
        }
    }

    fn unsettle(&mut self, from: usize) {
        for place in from..self.bytes.len() {
            if place < self.bytes.len() {
                self.bytes[place] = (self.bytes[place].0, false);
            }
        }
    }

    fn settle(&mut self) {
        for place in 0..self.bytes.len() {
            if place < self.bytes.len() {
                self.bytes[place] = (self.bytes[place].0, true);
            }
        }
    }

    fn read(&self) -> [u8; 4] {
        let mut piece = [0; 4];
        let from = self.bytes.len().min(1);
        for (place, byte) in self.bytes.as_slice()[from..].iter().take(4).enumerate() {
            if place < 4 {
                piece[place] = byte.0;
            }
        }
        piece
    }

    fn take_call(&mut self, failing: Failing, call: Call) -> Result<(), AllocError> {
        self.last = (false, [0; 4]);
        if !self.succeeds(failing, 0) {
            return Ok(());
        }
        let size = self.bytes.len();
        match call {
            Call::Choose => {
                let (_, done) = self.takes(failing, 1);
                self.last.0 = done;
            }
            Call::Size => self.last.0 = self.succeeds(failing, 0),
            Call::Read => {
                self.last.0 = self.succeeds(failing, 0);
                if self.last.0 {
                    self.last.1 = self.read();
                }
            }
            Call::Write { at, byte, count } => {
                let (fits, done) = self.takes(failing, (count as u64).saturating_add(1));
                self.last.0 = done;
                if fits {
                    let from = (at as usize).min(size);
                    for i in 0..count {
                        self.put(from.saturating_add(i), byte)?;
                    }
                }
            }
            Call::Cut { len } => {
                let (fits, done) = self.takes(failing, 1);
                self.last.0 = done;
                if done {
                    self.bytes.truncate(len as usize);
                } else if fits {
                    self.unsettle(len as usize);
                }
            }
            Call::Sync => {
                let (_, done) = self.takes(failing, 1);
                self.last.0 = done;
                if done {
                    self.settle();
                }
            }
        }
        Ok(())
    }

    // The image of a crash with this fill.
    fn image(&self, alloc: Global, fill: &[u8]) -> Result<Vec<u8>, AllocError> {
        let mut image = Vec::new(alloc);
        let mut unsettled = 0;
        for (byte, settled) in &self.bytes {
            let filled = match fill.get(unsettled) {
                Some(filled) if !*settled => *filled,
                _ => *byte,
            };
            image.push(filled)?;
            if !*settled {
                unsettled = next_in(unsettled, fill.len());
            }
        }
        Ok(image)
    }
}

// The place behind this one, and the first behind the last.
fn next_in(place: usize, len: usize) -> usize {
    let next = place.saturating_add(1);
    if next < len { next } else { 0 }
}

// What these calls leave, from the beginning.
fn after_calls(alloc: Global, failing: Failing, calls: &[Call]) -> Result<PlainDisk, AllocError> {
    let mut plain = PlainDisk {
        bytes: vec![in alloc; (7, true), (8, true)]?,
        room: failing.room,
        calls: 0,
        faults: 0,
        last: (false, [0; 4]),
    };
    for call in calls {
        plain.take_call(failing, *call)?;
    }
    Ok(plain)
}

const FILLS: [&[u8]; 5] = [&[], &[0], &[0xA5], &[0x5A], &[1, 2, 3]];

fn is_as_plain(
    alloc: Global,
    disk: &DiskMemory,
    outcome: Outcome,
    plain: &PlainDisk,
) -> Result<bool, AllocError> {
    let mut same = outcome == plain.last && disk.faults() == plain.faults;
    for fill in FILLS {
        let image = disk.crash(fill)?;
        let wanted = plain.image(alloc, fill)?;
        same = same && image.as_slice() == wanted.as_slice();
    }
    Ok(same)
}

fn disk_of(alloc: Global, failing: Failing) -> Result<DiskMemory, AllocError>
    ensures { IfOk result (λ disk. IsSynced (disk_view disk)) }
{
    let bytes = vec![in alloc; 7, 8]?;
    let numbers = vec![in alloc; failing.number]?;
    DiskMemory::new(alloc, bytes, failing.room, numbers, failing.stop)
}

// Whether a disk that fails so is as the model after each call of the script.
fn follows_plain(alloc: Global, failing: Failing) -> Result<bool, AllocError> {
    let mut disk = disk_of(alloc, failing)?;
    let mut calls = Vec::new(alloc);
    for call in SCRIPT {
        calls.push(call)?;
        let outcome = perform(&mut disk, call);
        let plain = after_calls(alloc, failing, calls.as_slice())?;
        if !is_as_plain(alloc, &disk, outcome, &plain)? {
            return Ok(false);
        }
    }
    Ok(true)
}

#[test]
fn each_call_fails_by_the_model(rt: HostRuntime) -> Result<(), Fail> {
    for n in 0..26 {
        for failing in [
            Failing {
                number: n,
                stop: None,
                room: 100,
            },
            Failing {
                number: NEVER,
                stop: Some(n),
                room: 100,
            },
            Failing {
                number: NEVER,
                stop: None,
                room: n,
            },
        ] {
            assert!(rt; follows_plain(rt.alloc(), failing)?, "{n}");
        }
    }
    Ok(())
}

// By these numbers a disk's calls fail.
#[test]
fn the_last_number_fails(rt: HostRuntime) -> Result<(), Fail> {
    let mut calls = Calls::new(vec![in rt.alloc(); NEVER]?);
    calls.made = u64::MAX - 1;
    assert!(rt; !calls.fails());
    calls.count();
    assert!(rt; calls.fails());
    calls.count_fault();
    assert!(rt; calls.fails());
    calls.count_fault();
    assert_eq!(rt; calls.faults, 2);
    Ok(())
}

// The result of a helper, and what the file then reads as and what a crash may leave of it.
type Left = (bool, Vec<u8>, Vec<u8>);

// The size of a disk, or 0 where the call fails.
fn size_of(disk: &mut DiskMemory) -> u64
    requires { IsSynced (disk_view disk.old) }
    ensures within { IfSome (disk_view disk.new).told (λ f. result ≤ length f) }
    ensures synced { IsSynced (disk_view disk.new) }
{
    match disk.size() {
        Ok(size) => size,
        Err(Failed) => 0,
    }
}

fn left_by_write(alloc: Global, number: u64) -> Result<Left, AllocError> {
    let failing = Failing {
        number,
        stop: None,
        room: 9,
    };
    let mut disk = disk_of(alloc, failing)?;
    let size = size_of(&mut disk);
    let done = write_through(&mut disk, size.min(1), b"xyz").is_ok();
    Ok((done, disk.crash(&[])?, disk.crash(&[1])?))
}

fn left_by_replacement(alloc: Global, number: u64) -> Result<Left, AllocError> {
    let failing = Failing {
        number,
        stop: None,
        room: 9,
    };
    let mut disk = disk_of(alloc, failing)?;
    let size = size_of(&mut disk);
    let done = replace_from(&mut disk, size.min(1), b"x").is_ok();
    Ok((done, disk.crash(&[])?, disk.crash(&[1])?))
}

#[test]
fn helpers_leave_a_synced_disk(rt: HostRuntime) -> Result<(), Fail> {
    for (number, done, reads, crash) in [
        (1, false, b"\x07xyz", b"\x07\x01\x01\x01"),
        (2, false, b"\x07xyz", b"\x07\x01\x01\x01"),
        (3, true, b"\x07xyz", b"\x07xyz"),
    ] {
        let left = left_by_write(rt.alloc(), number)?;
        assert_eq!(rt; left.0, done);
        assert_eq!(rt; left.1.as_slice(), reads.as_slice());
        assert_eq!(rt; left.2.as_slice(), crash.as_slice());
    }
    for (number, done, reads, crash) in [
        (1, false, b"\x07\x08", b"\x07\x01"),
        (2, false, b"\x07x", b"\x07\x01"),
        (3, false, b"\x07x", b"\x07\x01"),
        (4, true, b"\x07x", b"\x07x"),
    ] {
        let left = left_by_replacement(rt.alloc(), number)?;
        assert_eq!(rt; left.0, done);
        assert_eq!(rt; left.1.as_slice(), reads.as_slice());
        assert_eq!(rt; left.2.as_slice(), crash.as_slice());
    }
    Ok(())
}

#[test]
fn a_disk_is_read_whole(rt: HostRuntime) -> Result<(), Fail> {
    NoGate.before(1, 1);
    NoGate.within(0, 1, 1);
    for (number, is_read) in [(0, false), (1, false), (2, true)] {
        let failing = Failing {
            number,
            stop: None,
            room: 0,
        };
        let mut disk = disk_of(rt.alloc(), failing)?;
        match read_disk(rt.alloc(), &mut disk) {
            Ok(bytes) => assert!(rt; is_read && bytes.as_slice() == b"\x07\x08".as_slice()),
            Err(_) => assert!(rt; !is_read),
        }
    }
    Ok(())
}
