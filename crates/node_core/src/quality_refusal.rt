//! Why the quality of a path is refused. Used by `node` and `station`.

/// Why the quality of the path to a neighbour isn't set.
#[derive(Clone, Copy, Debug, PartialEq, Eq)]
pub enum QualityRefusal {
    /// 16 other neighbours have one.
    Full,
    /// Memory ran out.
    NoMemory,
}
