// Whole texts, from tokens.

ghost use Rattle.ps_parser.specs.Language.{Answers};
ghost use Rattle.ps_derived.specs.Texts.{libraries};

use crate::library::{Library, Sources};
use ps_base::{Fail, Refusal, Rule};
use ps_lexer::Tokens;
use ps_parser::{Heads, is_head_at, parse_from};
use std::alloc::Global;

/// The library that the tokens spell: any number of function blocks, and then one program, with nothing after it.
/// Their groups are nested at most `MOST_GROUPS` deep. Time is linear in the number of tokens.
///
/// Otherwise the refusal at the earliest token: P1 where no text goes on with it, whatever the depth of its groups, or
/// where the tokens end before the program does; P2 at the bracket of a group that is nested too deep. The place is
/// that of the token, or the end of the text. The grammar is a profile of structured text of IEC 61131-3.
pub fn parse_library(alloc: Global, tokens: &Tokens) -> Result<Library, Fail>
    ensures parses { Answers libraries tokens.now result }
{
    let mut blocks = Sources::new(alloc);
    let mut at = 0;
    'each: while is_head_at(tokens, at, Heads::Block) {
        let (block, next) = parse_from(alloc, tokens, at, Heads::Block)?;
        blocks.push(block)?;
        at = next;
    }
    let (program, next) = parse_from(alloc, tokens, at, Heads::Program)?;
    let next = next as usize;
    if next < tokens.list.len() {
        return Err(Fail::Refused(Refusal {
            rule: Rule::P1,
            place: tokens.list.at(next).place,
        }));
    }
    Ok(Library { blocks, program })
}
