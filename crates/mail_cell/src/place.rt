//! What a mail holds: the jobs that were posted, and a place for each client.

/// A job and the client that posted it.
#[derive(Debug, Drop)]
pub struct Post<J> {
    /// The number of the client.
    pub client: u32,
    /// The job.
    pub job: J,
}

/// What there is of one client.
#[derive(Debug, Drop)]
pub enum Place<A> {
    /// Nothing: the client may post.
    Idle,
    /// Its job is posted and was not taken.
    Waiting,
    /// Its job was taken and has no answer yet.
    Out,
    /// Its job was answered, and it has not fetched the answer.
    Answered(A),
}
