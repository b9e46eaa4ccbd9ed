// The words round a source.

/// The words that begin and end a source: PROGRAM and END_PROGRAM, or FUNCTION_BLOCK and END_FUNCTION_BLOCK.
#[derive(Clone, Copy)]
pub enum Heads {
    Program,
    Block,
}
