//! What taking a job and fetching an answer give.

/// What `Mail::take` gives.
#[derive(Debug, Drop, PartialEq, Eq)]
pub enum Taken<J> {
    /// The job that was posted first of those that were not taken, and the client that posted it.
    Job {
        /// The number of the client.
        client: u32,
        /// The job.
        job: J,
    },
    /// No job is posted, and the mail is open.
    Empty,
    /// No job is posted, and the mail is closed.
    Closed,
}

/// What `Mail::fetch` gives.
#[derive(Debug, Drop, PartialEq, Eq)]
pub enum Fetched<A> {
    /// The answer to the client's job.
    Got(A),
    /// No answer of that client is held.
    NotYet,
}
