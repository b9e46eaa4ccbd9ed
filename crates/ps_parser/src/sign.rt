// Tokens that are always spelt alike, and what stands at the front of a list of tokens.

/// A token that is always spelt alike, but for letter case. FUNCTION_BLOCK and END_FUNCTION_BLOCK are among them, which
/// are names for the lexer. The sign `&` is AND.
#[derive(Clone, Copy, PartialEq)]
pub enum Sign {
    Program,
    EndProgram,
    FunctionBlock,
    EndFunctionBlock,
    VarInput,
    VarOutput,
    Var,
    EndVar,
    And,
    Or,
    Assign,
    Colon,
    Semicolon,
    Comma,
    LeftBracket,
    RightBracket,
    Dot,
}
