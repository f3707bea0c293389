//! The test: interleavings of many seeds, what each query of which finds the plain program finds too.
use crate::plain::{PlainQuery, PlainRun, PlainWish};
use crate::threads::play;
use core_steps::Totals;
use std::alloc::Global;
use std::sync::Wait;
use std::thread::Threads;

/// What interleavings had.
#[derive(Clone, Copy, Debug, PartialEq, Eq)]
struct Tally {
    /// Queries, and those that the plain program answers otherwise.
    queries: u64,
    wrong: u64,
    /// Queries that saw rows, and those that saw a sum other than 0.
    rows: u64,
    sums: u64,
    /// Queries that deletions made smaller.
    deletions: u64,
    /// Queries by snapshots with deps, and those that these made smaller or larger.
    deps: u64,
    deps_told: u64,
    rollbacks: u64,
    rounds: u64,
    purges: u64,
    /// Orders in which the same steps were answered otherwise than in the order before.
    orders: u64,
}

impl Tally {
    fn new() -> Tally {
        Tally {
            queries: 0,
            wrong: 0,
            rows: 0,
            sums: 0,
            deletions: 0,
            deps: 0,
            deps_told: 0,
            rollbacks: 0,
            rounds: 0,
            purges: 0,
            orders: 0,
        }
    }

    // One more query. None: memory ran out.
    fn take_query(&mut self, alloc: Global, run: &PlainRun, query: &PlainQuery) -> Option<()> {
        let found = run.totals_of(alloc, query, PlainWish::Answer).ok()?;
        let kept = run.totals_of(alloc, query, PlainWish::NoDeletions).ok()?;
        let all = run.totals_of(alloc, query, PlainWish::Deps).ok()?;
        self.queries = with(self.queries, true);
        self.wrong = with(self.wrong, !are_same(found, query.totals));
        self.rows = with(self.rows, query.totals.rows > 0);
        self.sums = with(self.sums, query.totals.sum.is_some_and(|sum| sum != 0));
        self.deletions = with(self.deletions, found.rows != kept.rows);
        self.deps = with(self.deps, query.has_deps());
        self.deps_told = with(self.deps_told, found.rows != all.rows);
        Some(())
    }

    // One more interleaving. None: memory ran out.
    fn take_run(&mut self, alloc: Global, run: &PlainRun) -> Option<()> {
        for query in run.queries.as_slice() {
            self.take_query(alloc, run, query)?;
        }
        self.rollbacks = self.rollbacks.wrapping_add(run.rollbacks);
        self.rounds = self.rounds.wrapping_add(run.rounds);
        self.purges = self.purges.wrapping_add(run.purges);
        Some(())
    }

    // Whether no query was wrong, and there was much of everything that one may see.
    fn holds(&self) -> bool {
        self.wrong == 0
            && self.queries > 2_000
            && self.rows > 1_000
            && self.sums > 1_000
            && self.deletions > 500
            && self.deps > 300
            && self.deps_told > 150
            && self.rollbacks > 200
            && self.rounds > 300
            && self.purges > 100
            && self.orders > 150
    }
}

// Whether two queries found the same.
fn are_same(one: Totals, other: Totals) -> bool {
    one.rows == other.rows && one.sum == other.sum
}

// One more where it is so.
fn with(number: u64, so: bool) -> u64 {
    if so { number.wrapping_add(1) } else { number }
}

/// How many interleavings there are, and how many of them have the same steps.
const INTERLEAVINGS: u64 = 300;

const ORDERS: u64 = 3;

// The tally of all interleavings. None: a step of one failed, or memory ran out.
fn tally_of<R: Threads + Wait + Sync>(rt: &R, alloc: Global) -> Option<Tally> {
    let mut tally = Tally::new();
    let mut last = 0;
    for seed in 0..INTERLEAVINGS {
        let run = play(rt, alloc, seed / ORDERS, seed)?;
        tally.take_run(alloc, &run)?;
        let mark = run.mark();
        tally.orders = with(tally.orders, seed % ORDERS != 0 && mark != last);
        last = mark;
    }
    Some(tally)
}

#[test]
fn interleavings(rt: HostRuntime) {
    let tally = tally_of(&rt, rt.alloc());
    assert!(rt; tally.is_some_and(|tally| tally.holds()), "{tally:?}");
}

// The same seeds give the same answers.
#[test]
fn orders_are_fixed(rt: HostRuntime) {
    for seed in 0..10 {
        let once = play(&rt, rt.alloc(), seed, seed).map(|run| run.mark());
        let again = play(&rt, rt.alloc(), seed, seed).map(|run| run.mark());
        assert!(rt; once.is_some() && once == again, "the order of {seed}");
    }
}
