//! Positions in a listing.

use reg_core::Row;

/// A position in a listing, after the last yielded line.
#[derive(Drop)]
pub enum Cursor {
    /// After the line of the subject whose first version this is, or before all lines.
    Subject(Option<Row>),
    /// After the line of this version, or before all lines.
    Version(Option<Row>),
    /// After the line of the schema with this id, or before all lines if it is 0.
    Schema(u32),
}
