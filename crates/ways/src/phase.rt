// Where a search stands.

// It goes on, it has reached the end, or its budget was spent when a pair was due.
#[derive(Clone, Copy, PartialEq, Eq)]
pub enum Phase {
    Going,
    Arrived,
    Spent,
}
