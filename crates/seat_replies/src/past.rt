//! What the texts of a run need to know of the lines ahead of it.

/// How many lines an older journal has of each session: 0, the manager, to 8.
#[derive(Clone, Copy)]
pub struct Past {
    pub calls: [u32; 9],
}
