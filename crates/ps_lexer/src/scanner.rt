// The tokens of a text.

ghost use Rattle.std.specs.Prelude.{◌≡◌, ℕ, ◌+◌, ◌<◌, ◌≤◌, ◌↔◌, true, false, length, slice_index, MatchOption, IsTrue};
ghost use Rattle.std.specs.Prelude.{IfOk, IfErr, IfSome, IfNone, take, drop};
ghost use Rattle.ps_lexer.specs.Spelling.{folded, spelling, begins_name, continues_name};
ghost use Rattle.ps_lexer.specs.TimeLiterals.{IsTimeHead, continues_time};
ghost use Rattle.ps_lexer.specs.Gaps.{is_blank, place_after, IsBlockComment, IsLineComment, IsOpenComment};
ghost use Rattle.ps_lexer.specs.Reading.{tokens};
ghost use Rattle.ps_lexer.specs.Scanning.{sign_at, opens_block, opens_line, IsPieceAt, Advances, StopsAt};

use crate::time::time_value;
use crate::token::{Form, Token, TokenList, Tokens, Word};
use ps_base::limits::{LARGEST_SOURCE, LONGEST_NAME};
use ps_base::{Bytes, Fail, Memory, Place, Refusal, Rule};
use std::alloc::Global;

// The byte at a place, and 0 past the end. No token, blank or comment has a 0.
fn byte_at(text: &[u8], i: usize) -> u8
    ensures { result ≡ slice_index text.now i }
{
    if i < text.len() { text[i] } else { 0 }
}

// Whether a byte is a space, a tab, CR or LF.
fn is_blank(b: u8) -> bool
    ensures { result ≡ is_blank b }
{
    b == b' ' || b == b'\t' || b == b'\r' || b == b'\n'
}

// Whether a name can begin with a byte.
fn begins_name(b: u8) -> bool
    ensures { result ≡ begins_name b }
{
    b.is_ascii_alphabetic() || b == b'_'
}

// Whether a name can go on with a byte.
fn continues_name(b: u8) -> bool
    ensures { result ≡ continues_name b }
{
    begins_name(b) || b.is_ascii_digit()
}

// Whether a TIME literal can go on with a byte.
fn continues_time(b: u8) -> bool
    ensures { result ≡ continues_time b }
{
    continues_name(b) || b == b'.'
}

// Whether two bytes open a comment up to `*)`.
fn opens_block(b: u8, next: u8) -> bool
    ensures { result ≡ opens_block b next }
{
    b == b'(' && next == b'*'
}

// Whether two bytes open a comment up to LF.
fn opens_line(b: u8, next: u8) -> bool
    ensures { result ≡ opens_line b next }
{
    b == b'/' && next == b'/'
}

// Where the letters, digits and underscores from a place on end.
fn name_end(text: &[u8], i: usize) -> usize
    requires { i ≤ length text.now }
    ensures from { i ≤ result }
    ensures within { result ≤ length text.now }
    ensures continues { (k : ℕ) → i ≤ k → k < result → continues_name (slice_index text.now k) ≡ true }
    ensures stops { continues_name (slice_index text.now result) ≡ false }
{
    let mut j = i;
    'run: while j < text.len() && continues_name(text[j]) {
        j += 1;
    }
    j
}

// Where the letters, digits, underscores and dots from a place on end.
fn time_end(text: &[u8], i: usize) -> usize
    requires { i ≤ length text.now }
    ensures from { i ≤ result }
    ensures within { result ≤ length text.now }
    ensures continues { (k : ℕ) → i ≤ k → k < result → continues_time (slice_index text.now k) ≡ true }
    ensures stops { continues_time (slice_index text.now result) ≡ false }
{
    let mut j = i;
    'run: while j < text.len() && continues_time(text[j]) {
        j += 1;
    }
    j
}

// Where the comment ends that `(*` at a place opens, if it is closed.
fn block_end(text: &[u8], i: usize) -> Option<usize>
    requires { opens_block (slice_index text.now i) (slice_index text.now (i + 1)) ≡ true }
    ensures { MatchOption result (IsOpenComment text.now i) (λ j. IsBlockComment text.now i j) }
{
    let mut k = i + 2;
    'block: while k + 1 < text.len() {
        if text[k] == b'*' && text[k + 1] == b')' {
            return Some(k + 2);
        }
        k += 1;
    }
    None
}

// Where the comment ends that `//` at a place opens.
fn line_end(text: &[u8], i: usize) -> usize
    requires { opens_line (slice_index text.now i) (slice_index text.now (i + 1)) ≡ true }
    ensures { IsLineComment text.now i result }
{
    let mut k = i + 2;
    'line: while k < text.len() && text[k] != b'\n' {
        k += 1;
    }
    k
}

// The keyword with this spelling, in any letter case.
fn keyword(word: &[u8]) -> Option<Word>
    ensures some { IfSome result (λ k. folded word.now ≡ spelling k) }
    ensures none { IfNone result ((k : Word) → folded word.now ≡ spelling k → ⊥) }
{
    if word.eq_ignore_ascii_case(b"PROGRAM") {
        Some(Word::Program)
    } else if word.eq_ignore_ascii_case(b"END_PROGRAM") {
        Some(Word::EndProgram)
    } else if word.eq_ignore_ascii_case(b"VAR_INPUT") {
        Some(Word::VarInput)
    } else if word.eq_ignore_ascii_case(b"VAR_OUTPUT") {
        Some(Word::VarOutput)
    } else if word.eq_ignore_ascii_case(b"VAR") {
        Some(Word::Var)
    } else if word.eq_ignore_ascii_case(b"END_VAR") {
        Some(Word::EndVar)
    } else if word.eq_ignore_ascii_case(b"AND") {
        Some(Word::And)
    } else if word.eq_ignore_ascii_case(b"OR") {
        Some(Word::Or)
    } else if word.eq_ignore_ascii_case(b"TRUE") {
        Some(Word::True)
    } else if word.eq_ignore_ascii_case(b"FALSE") {
        Some(Word::False)
    } else {
        None
    }
}

// The longest sign that begins with these two bytes, and how many of them it has.
fn sign(b: u8, next: u8) -> Option<(Form, usize)>
    ensures { result ≡ sign_at b next }
{
    if b == b':' && next == b'=' {
        Some((Form::Assign, 2))
    } else if b == b':' {
        Some((Form::Colon, 1))
    } else if b == b';' {
        Some((Form::Semicolon, 1))
    } else if b == b',' {
        Some((Form::Comma, 1))
    } else if b == b'(' {
        Some((Form::LeftBracket, 1))
    } else if b == b')' {
        Some((Form::RightBracket, 1))
    } else if b == b'.' {
        Some((Form::Dot, 1))
    } else if b == b'&' {
        Some((Form::Word(Word::And), 1))
    } else {
        None
    }
}

// What stands at a place: a blank, a comment up to a place, a token up to a place, or a rule that is broken.
#[derive(Drop)]
enum Piece {
    Blank,
    Comment(usize),
    Token(Form, usize),
    Broken(Rule),
}

// Whether the bytes begin with these, in any letter case.
fn begins_with(bytes: &[u8], front: &[u8]) -> bool
    ensures { IsTrue result ↔ (folded (take (length front.now) bytes.now) ≡ folded front.now) }
{
    match bytes.split_at_checked(front.len()) {
        Some((head, _)) => head.eq_ignore_ascii_case(front),
        None => false,
    }
}

// How many bytes `T#` or `TIME#` has, where the bytes begin with one of them.
fn time_head_len(bytes: &[u8]) -> Option<usize>
    ensures some { IfSome result (λ n. (n ≤ length bytes.now) × IsTimeHead (take n bytes.now)) }
    ensures none { IfNone result ((n : ℕ) → IsTimeHead (take n bytes.now) → ⊥) }
{
    if begins_with(bytes, b"T#") {
        Some(2)
    } else if begins_with(bytes, b"TIME#") {
        Some(5)
    } else {
        None
    }
}

// The TIME literal at a place, of which the first bytes are `T#` or `TIME#`.
fn time_at(text: &[u8], i: usize, head_len: usize) -> Piece
    requires room { i + head_len ≤ length text.now }
    requires head { IsTimeHead (take head_len (drop i text.now)) }
    ensures { IsPieceAt text.now i result }
{
    let parts_from = i + head_len;
    let j = time_end(text, parts_from);
    match time_value(&text[parts_from..j]) {
        Some(value) => Piece::Token(Form::Time(value), j),
        None => Piece::Broken(Rule::L3),
    }
}

// The keyword or name at a place.
fn name_at(alloc: Global, text: &[u8], i: usize) -> Result<Piece, Memory>
    requires room { i < length text.now }
    requires begins { begins_name (slice_index text.now i) ≡ true }
    requires no_time { (n : ℕ) → IsTimeHead (take n (drop i text.now)) → ⊥ }
    ensures { IfOk result (IsPieceAt text.now i) }
{
    let j = name_end(text, i + 1);
    if j - i > LONGEST_NAME as usize {
        return Ok(Piece::Broken(Rule::L4));
    }
    let word = &text[i..j];
    match keyword(word) {
        Some(known) => Ok(Piece::Token(Form::Word(known), j)),
        None => Ok(Piece::Token(Form::Name(Bytes::from_slice(alloc, word)?), j)),
    }
}

// What stands at a place of the text.
fn piece_at(alloc: Global, text: &[u8], i: usize) -> Result<Piece, Memory>
    requires { i < length text.now }
    ensures { IfOk result (IsPieceAt text.now i) }
{
    let b = byte_at(text, i);
    let next = byte_at(text, i + 1);
    if is_blank(b) {
        return Ok(Piece::Blank);
    }
    if opens_block(b, next) {
        return match block_end(text, i) {
            Some(j) => Ok(Piece::Comment(j)),
            None => Ok(Piece::Broken(Rule::L2)),
        };
    }
    if opens_line(b, next) {
        return Ok(Piece::Comment(line_end(text, i)));
    }
    if begins_name(b) {
        return match time_head_len(&text[i..]) {
            Some(head_len) => Ok(time_at(text, i, head_len)),
            None => name_at(alloc, text, i),
        };
    }
    match sign(b, next) {
        Some((form, n)) => Ok(Piece::Token(form, i + n)),
        None => Ok(Piece::Broken(Rule::L1)),
    }
}

// The place after the bytes from one place up to another.
fn advance(text: &[u8], from: usize, upto: usize, place: Place) -> Place
    requires size { length text.now ≤ LARGEST_SOURCE }
    requires order { from ≤ upto }
    requires within { upto ≤ length text.now }
    requires before { place ≡ place_after (take from text.now) }
    ensures { result ≡ place_after (take upto text.now) }
{
    let mut line = place.line;
    let mut column = place.column;
    let mut k = from;
    'step: while k < upto {
        if text[k] == b'\n' {
            line += 1;
            column = 1;
        } else {
            column += 1;
        }
        k += 1;
    }
    Place { line, column }
}

// Takes the piece at a place, and says where it ends.
fn take_piece(
    alloc: Global,
    text: &[u8],
    i: usize,
    place: Place,
    list: &mut TokenList,
) -> Result<usize, Fail>
    requires size { length text.now ≤ LARGEST_SOURCE }
    requires room { i < length text.now }
    requires few { length list.old ≤ i }
    requires stands { place ≡ place_after (take i text.now) }
    ensures ok { IfOk result (λ j. Advances text.now i j list.old list.new) }
    ensures err { IfErr result (StopsAt text.now i place) }
{
    match piece_at(alloc, text, i)? {
        Piece::Blank => Ok(i + 1),
        Piece::Comment(j) => Ok(j),
        Piece::Token(form, j) => {
            list.push(Token {
                form,
                from: i as u32,
                upto: j as u32,
                place,
            })?;
            Ok(j)
        }
        Piece::Broken(rule) => Err(Fail::Refused(Refusal { rule, place })),
    }
}

/// The tokens of a text, each the longest that begins at its place, with its span and place, and the place one past the
/// text's last byte; after the lexical part of IEC 61131-3, in the project's profile.
///
/// Refused are, at the first place that breaks a rule: L1, a byte that begins no token, no blank and no comment; L2, a
/// comment `(*` that is not closed, at its beginning; L3, `T#` or `TIME#` that begins no TIME literal of at most
/// `LARGEST_TIME` ms; L4, a name of over `LONGEST_NAME` bytes, at its first byte. Before all of these comes L5, at line
/// 1 column 1: a text of over `LARGEST_SOURCE` bytes.
///
/// Time is linear in the text: each piece of it is looked at a fixed number of times. Memory is linear in the tokens.
pub fn lex(alloc: Global, text: &[u8]) -> Result<Tokens, Fail>
    ensures { tokens text.now result }
{
    let mut place = Place { line: 1, column: 1 };
    if text.len() > LARGEST_SOURCE as usize {
        return Err(Fail::Refused(Refusal {
            rule: Rule::L5,
            place,
        }));
    }
    let mut list = TokenList::new(alloc);
    let mut i = 0;
    'scan: while i < text.len() {
        let j = take_piece(alloc, text, i, place, &mut list)?;
        place = advance(text, i, j, place);
        i = j;
    }
    Ok(Tokens { list, end: place })
}
