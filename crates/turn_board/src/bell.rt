//! A bell, on which one caller rests until it is rung.
use std::hint::spin_loop;
use std::sync::Wait;
use std::sync::atomic::AtomicU64;
use std::sync::atomic::Ordering::SeqCst;
use std::thread;
use std::time::Duration;

// What a ring adds. The lowest bit says that the caller sleeps.
const RING: u64 = 2;

// How often a caller looks at its bell at first.
const LOOKS: u32 = 8;

// How often it then lets another thread have the processor between two looks, before it sleeps.
const YIELDS: u32 = 300;

// The longest sleep, so that a bell that nobody rings delays its caller and does not stop it.
const LONGEST: u64 = 10_000;

// What a thread that sleeps on a word compares.
fn low_half(word: u64) -> u32 {
    (word % 4_294_967_296) as u32
}

/// A bell that counts how often it was rung, beside the count that its caller has heard. Each has cache lines of
/// its own: a caller that hears a ring writes nothing where the next one rings. A ring is kept until the next
/// rest.
#[derive(Drop)]
pub struct Bell {
    rings: AtomicU64,
    room: [u64; 15],
    heard: AtomicU64,
    room_behind: [u64; 15],
}

impl Bell {
    pub fn new() -> Bell {
        Bell {
            rings: AtomicU64::new(0),
            room: [0; 15],
            heard: AtomicU64::new(0),
            room_behind: [0; 15],
        }
    }

    /// Wakes the caller that rests here, or lets the next rest return at once. No system call is made where nobody
    /// sleeps.
    pub fn ring(&self) {
        if self.rings.fetch_add(RING, SeqCst) % RING != 0 {
            self.rings.wake_one();
        }
    }

    // How often the bell was rung since its caller last heard it. Its caller alone asks.
    fn news(&self) -> u64 {
        let rings = self.rings.load(SeqCst);
        let heard = self.heard.load(SeqCst);
        if rings == heard {
            return 0;
        }
        self.heard.store(rings, SeqCst);
        rings.wrapping_sub(heard) / RING
    }

    // How often the bell is rung while its caller looks.
    fn looks(&self) -> u64 {
        for _ in 0..LOOKS {
            let rings = self.news();
            if rings != 0 {
                return rings;
            }
            spin_loop();
        }
        for _ in 0..YIELDS {
            let rings = self.news();
            if rings != 0 {
                return rings;
            }
            thread::yield_now();
        }
        0
    }

    /// Returns once the bell is rung, or was, and after some milliseconds in any case: how often it was rung since its
    /// caller last heard it.
    pub fn rest<R: Wait>(&self, rt: &R) -> u64 {
        let rings = self.looks();
        if rings != 0 {
            return rings;
        }
        let heard = self.heard.load(SeqCst);
        let asleep = heard | 1;
        if self
            .rings
            .compare_exchange(heard, asleep, SeqCst, SeqCst)
            .is_ok()
        {
            self.rings
                .park_timeout(rt, low_half(asleep), Duration::from_micros(LONGEST));
            self.rings.fetch_sub(1, SeqCst);
        }
        self.news()
    }
}
