// What reading answers: counts of what stands in the tables.

#[derive(Clone, Copy)]
pub struct Read {
    // The nodes of all patterns, and of all expressions.
    pub patterns: usize,
    pub expressions: usize,
    pub constraints: usize,
}
