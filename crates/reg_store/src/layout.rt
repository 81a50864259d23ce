//! The two layouts of the tables.

/// A layout of the tables.
#[derive(Clone, Copy, Debug, PartialEq, Eq)]
pub(crate) enum Layout {
    /// Layout 1, without modes and evidence.
    One,
    /// Layout 2.
    Two,
}
