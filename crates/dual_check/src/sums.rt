// The two sums of a cut.

/// What has to pass a cut and what may, in tickets.
#[derive(Clone, Copy)]
pub struct Excess {
    /// What has to pass.
    pub need: u64,
    /// What may pass.
    pub room: u64,
}
