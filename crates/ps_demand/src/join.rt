// By which word parts are joined.

/// By which word the parts of a formula are joined.
#[derive(Clone, Copy)]
pub enum Join {
    /// AND: it holds where every part does.
    And,
    /// OR: it holds where at least one part does.
    Or,
}
