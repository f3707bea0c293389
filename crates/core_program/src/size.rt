//! The numbers of cells and callers of a core.
ghost use Rattle.std.specs.Prelude.{◌≡◌, ◌+◌, ◌<◌, ◌≤◌};

/// How many shards and sessions a core has.
#[derive(Clone, Copy, Debug)]
pub struct CoreSize {
    pub shards: u32,
    pub sessions: u32,
    ghost few_shards: { shards ≤ 64 },
    ghost few_sessions: { sessions ≤ 16 },
}

impl CoreSize {
    /// A core of so many shards and sessions.
    pub fn new(shards: u32, sessions: u32) -> CoreSize
        requires shards { shards ≤ 64 }
        requires sessions { sessions ≤ 16 }
        ensures shards { result.shards ≡ shards }
        ensures sessions { result.sessions ≡ sessions }
    {
        CoreSize { shards, sessions }
    }

    /// How many callers there are: main, the sessions, a worker for each shard, and the flusher.
    pub fn callers(&self) -> u32
        ensures { result ≡ self.now.sessions + 2 + self.now.shards }
    {
        self.sessions + 2 + self.shards
    }

    /// The cell of a shard. The desk is cell 0 and the names are cell 1.
    pub fn shard_cell(&self, number: u32) -> u32
        requires { number < self.now.shards }
        ensures { result ≡ 2 + number }
    {
        2 + number
    }

    /// The cell of a shard's mail, or behind these of the flusher's.
    pub fn mail_cell(&self, number: u32) -> u32
        requires { number ≤ self.now.shards }
        ensures { result ≡ 2 + self.now.shards + number }
    {
        2 + self.shards + number
    }

    /// The caller that serves a mail: the worker of a shard, or the flusher.
    pub fn server_of(&self, number: u32) -> u32
        requires { number ≤ self.now.shards }
        ensures { result ≡ self.now.sessions + 1 + number }
    {
        self.sessions + 1 + number
    }

    /// The caller that acts as a client: main and the sessions bear its number, and the flusher is the last.
    pub fn caller_of(&self, client: u32) -> u32
        ensures { result < self.now.sessions + 2 + self.now.shards }
    {
        if client <= self.sessions {
            client
        } else {
            self.sessions + 1 + self.shards
        }
    }
}
