// How what is watched is written.

/// How what is watched is written.
#[derive(Clone, Copy)]
pub enum Format {
    /// For a person: a line for each scan in which something changed.
    Text,
    /// CSV (RFC 4180): a header, and a row for each scan.
    Csv,
    /// JSON (RFC 8259): an object in a line for each scan.
    Json,
}
