//! What the sessions do, drawn from a seed.
use core_steps::Step;

/// How many coordinates the cube has, and how many of them one of its bricks.
const COORDS: u32 = 8;

const RANGE: u32 = 2;

/// The text of the cube.
pub(crate) const CUBE: &str = "cube c\ndim d int 8 2\nmetric m\n";

/// Numbers that look as if drawn by chance, the same in each run.
#[derive(Clone, Copy)]
pub(crate) struct Draws {
    state: u64,
}

impl Draws {
    /// Those of a seed.
    pub(crate) fn new(seed: u64) -> Draws {
        let mut draws = Draws { state: seed };
        draws.below(1);
        draws.below(1);
        draws
    }

    /// A number below another.
    fn below(&mut self, n: u32) -> u32 {
        self.state = self
            .state
            .wrapping_mul(6_364_136_223_846_793_005)
            .wrapping_add(1_442_695_040_888_963_407);
        let high = u32::try_from(self.state >> 33).unwrap_or(0);
        high.checked_rem(n).unwrap_or(0)
    }

    // A row, with a metric between -4 and 4.
    fn put(&mut self) -> Step {
        Step::Put {
            coord: self.below(COORDS),
            metric: i64::from(self.below(9)).wrapping_sub(4),
        }
    }

    // The rows of a brick or more.
    fn delete(&mut self) -> Step {
        let one = self.below(COORDS / RANGE);
        let other = self.below(COORDS / RANGE);
        Step::Delete {
            low: one.min(other).wrapping_mul(RANGE),
            high: one.max(other).wrapping_mul(RANGE).wrapping_add(RANGE - 1),
        }
    }

    // The rows between two coordinates, in one of three draws all.
    fn query(&mut self) -> Step {
        let one = self.below(COORDS);
        let other = self.below(COORDS);
        match self.below(3) {
            0 => Step::Query {
                low: 0,
                high: COORDS - 1,
            },
            _ => Step::Query {
                low: one.min(other),
                high: one.max(other),
            },
        }
    }

    /// The next step of a session, which is within a transaction or not.
    pub(crate) fn step(&mut self, within: bool) -> Step {
        if within {
            self.step_within()
        } else {
            self.step_without()
        }
    }

    fn step_within(&mut self) -> Step {
        match self.below(10) {
            0 | 1 | 2 | 3 => self.put(),
            4 => self.delete(),
            5 | 6 => self.query(),
            7 => Step::RollBack,
            _ => Step::Commit,
        }
    }

    fn step_without(&mut self) -> Step {
        match self.below(12) {
            0 | 1 | 2 => Step::Begin,
            3 | 4 | 5 => self.put(),
            6 => self.delete(),
            7 | 8 | 9 => self.query(),
            10 => Step::Purge,
            _ => Step::Flush,
        }
    }
}
