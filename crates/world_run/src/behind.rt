use sse_world::Outcome;

/// What is told of an event that happened to a world.
#[derive(Clone, Copy)]
pub struct Behind {
    pub outcome: Outcome,
    /// How many reports there are behind it.
    pub reports: u64,
}
