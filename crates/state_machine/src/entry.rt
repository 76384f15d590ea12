// An entry of a history.

/// One step in a history: whose it was, and what is kept of its event and its reply.
#[derive(Drop)]
pub struct Entry<N> {
    /// The number of the seat that made the step.
    pub by: u32,
    pub note: N,
}
