// The flat source of a text.

use ps_accepted::flat_source;
use ps_base::Fail;
use ps_derived::{Library, parse_library};
use ps_lexer::lex;
use ps_parser::Source;
use std::alloc::Global;

/// The function blocks and the program of a text.
pub(crate) fn library_of(alloc: Global, text: &[u8]) -> Result<Library, Fail> {
    match lex(alloc, text) {
        Ok(tokens) => parse_library(alloc, &tokens),
        Err(fail) => Err(fail),
    }
}

/// The flat source of a text.
pub(crate) fn source_of(alloc: Global, text: &[u8]) -> Result<Source, Fail> {
    match library_of(alloc, text) {
        Ok(library) => flat_source(alloc, library),
        Err(fail) => Err(fail),
    }
}
