// How coverage is written.

/// How coverage is written.
#[derive(Clone, Copy)]
pub enum Format {
    /// For a person.
    Text,
    /// JSON (RFC 8259): an object in a line for each instance, and for each that was never seen.
    Json,
}
