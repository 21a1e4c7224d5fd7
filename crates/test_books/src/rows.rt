//! Rows of permitted pairs, and values of nodes.

use pm_base::{Caps, NodeId, Unit};
use pm_core::Book;
use pm_rows::Row;

/// A row in which nothing is used, scheduled, held or preallocated.
pub const UNUSED: Row = Row {
    used: false,
    now: Caps(0),
    next: Caps(0),
    preset: Caps(0),
    hold: false,
    armed: None,
    latency: None,
};

/// A master, a slave, and its row.
pub type RowCase = (u32, u32, Option<Row>);

/// The index of the first case with another row.
pub fn wrong_row(book: &Book, rows: &[RowCase]) -> Option<usize> {
    for (place, (master, slave, row)) in rows.iter().enumerate() {
        if book.row(NodeId(*master), NodeId(*slave)) != *row {
            return Some(place);
        }
    }
    None
}

/// The index of the first node with another value.
pub fn wrong_value(book: &Book, values: &[(u32, u32)]) -> Option<usize> {
    for (place, (number, value)) in values.iter().enumerate() {
        if book.value(Unit::Node(NodeId(*number))) != *value {
            return Some(place);
        }
    }
    None
}
