// The reader of lines. It holds one piece of the file, and a line that several pieces make up.

ghost use Rattle.std.specs.Prelude.{◌≡◌, ◌≤◌, ◌<◌, ◌+◌, ◌-◌, ◌++◌, ℕ, List, IsTrue, Some, IsSome, OnOk, OnSome, take, length, vec_len, IfOk, OnErr, IfSome, IfNone, slice_index, true, false};
ghost use Rattle.ps_outside.specs.Outside.{Rose, CountsStay};
ghost use Rattle.std.specs.Str.Lines.{strip_carriage_return};
ghost use Rattle.ps_lines.specs.Lines.{HasNoLineFeed};

use crate::feeds::line_feed;
use ps_base::Memory;
use ps_outside::{Failed, Files};
use std::alloc::Global;

// How many bytes are read at a time.
const PIECE: usize = 4096;

/// The limits of a text, in bytes.
#[derive(Clone, Copy)]
pub struct Limits {
    /// The most bytes of a line, without its line feed.
    pub longest: u32,
    /// The most bytes of the text.
    pub largest: u32,
}

/// What came next.
#[derive(Clone, Copy, PartialEq)]
pub enum Got {
    /// A line that a line feed ends.
    Line,
    /// The last line, which the text's end ends.
    LastLine,
    /// A line that is longer than the limit.
    TooLong,
    /// A line that has a byte past the largest text.
    TooLarge,
    /// The text's end.
    End,
}

/// A reader of the lines of one file. All memory that it uses is taken by `start`.
pub struct LineReader {
    name: String,
    limits: Limits,
    // `at` bytes of the file were read; those of the piece from `from` to `upto` were not yet looked at
    piece: Vec<u8>,
    from: usize,
    upto: usize,
    at: u64,
    // before them stand `count` bytes of the line, which `line` keeps if it is not too long
    line: Vec<u8>,
    count: usize,
    // the line that came last stands in the piece from `begin` on, or in `line`, up to `end`
    in_piece: bool,
    begin: usize,
    end: usize,
    ghost in_order: { from ≤ upto },
    ghost held: { upto ≤ vec_len piece },
    ghost whole_piece: { vec_len piece ≡ 4096 },
    ghost whole_line: { vec_len line ≡ limits.longest },
    ghost looked: { count + (upto - from) ≤ at },
    ghost near: { at ≤ limits.largest + 4096 },
    ghost begun: { at ≤ limits.largest + (upto - from) + count },
    ghost shown: { begin ≤ end },
    ghost shown_in_piece: { IsTrue in_piece → end ≤ vec_len piece },
    ghost shown_in_line: { in_piece ≡ false → end ≤ vec_len line },
}

impl Drop for LineReader {
    // One call for whoever owns one, in place of a walk through all that it holds.
    fn drop(self) {
        let LineReader {
            name: _,
            limits: _,
            piece: _,
            from: _,
            upto: _,
            at: _,
            line: _,
            count: _,
            in_piece: _,
            begin: _,
            end: _,
        } = self;
    }
}

impl LineReader {
    ghost use Rattle.ps_lines.specs.Reader.{IsReading, Gives, GoesOn, IsFresh, begin_of, held_of, left, limits_of, line_of, name_of, read_of};

    /// A reader of the file of this name, of which nothing was read so far.
    ///
    /// It takes all memory that the reader will use: a piece of 4,096 bytes and one line of the longest length.
    pub fn start(alloc: Global, name: &str, limits: Limits) -> Result<LineReader, Memory>
        ensures name { IfOk result (λ reader. name_of reader ≡ name.now) }
        ensures fresh { IfOk result (IsFresh limits) }
    {
        Ok(LineReader {
            name: String::from_str(alloc, name)?,
            limits,
            piece: vec![in alloc; 0; PIECE]?,
            from: 0,
            upto: 0,
            at: 0,
            line: vec![in alloc; 0; limits.longest as usize]?,
            count: 0,
            in_piece: false,
            begin: 0,
            end: 0,
        })
    }

    /// The line that came last, without its line feed and a carriage return before that.
    pub fn line(&self) -> &[u8]
        ensures { result.now ≡ line_of self.now }
    {
        if self.in_piece {
            &self.piece[self.begin..self.end]
        } else {
            &self.line[..self.end]
        }
    }

    /// The next line. `Failed` comes only where the files' count of the name rose in this call, at the one read that
    /// failed, and a later call goes on with the same line; where a line comes the counts are as they were. It takes
    /// no memory.
    ///
    /// It reads in pieces, only while the bytes that are held contain no whole line, and goes on after a read that
    /// gave less than was asked for. A line that is too long is read on without being kept, up to its line feed, the
    /// text's end or a byte past the largest text.
    #[inline(always)]
    pub fn next_line<F: Files>(&mut self, files: &mut F) -> Result<Got, Failed>
        ensures reads { IsTrue (F.tells files.old) → (text : List ℕ) → F.held files.old (name_of self.old) ≡ Some text →
            IsReading self.old text → IsReading self.new text }
        ensures gives { IsTrue (F.tells files.old) → (text : List ℕ) → F.held files.old (name_of self.old) ≡ Some text →
            IsReading self.old text → IfOk result (λ got. Gives (left self.old text) got (line_of self.new) (left self.new text)) }
        ensures same_line { IsTrue (F.tells files.old) → (text : List ℕ) → F.held files.old (name_of self.old) ≡ Some text →
            IsReading self.old text → OnErr result (left self.new text ≡ left self.old text) }

        // Of a name that is not held nothing is read.
        ensures found { IsTrue (F.tells files.old) → read_of self.old ≡ 0 → OnOk result (IsSome (F.held files.old (name_of self.old))) }

        ensures goes_on { IfOk result (λ got. GoesOn got self.old self.new) }
        ensures stays { OnErr result (begin_of self.new ≡ begin_of self.old) }
        ensures behind { begin_of self.old ≤ begin_of self.new }
        ensures within { begin_of self.new ≤ (limits_of self.new).largest }
        ensures fault { OnErr result (Rose (F.faults files.old (name_of self.old)) (F.faults files.new (name_of self.old))) }
        ensures exact { OnOk result (CountsStay (F.faults files.old) (F.faults files.new)) }

        ensures counts { (other : List ℕ) → F.faults files.old other ≤ F.faults files.new other }
        ensures kept { F.held files.new ≡ F.held files.old }
        ensures telling { F.tells files.new ≡ F.tells files.old }
        ensures name { name_of self.new ≡ name_of self.old }
        ensures limits { limits_of self.new ≡ limits_of self.old }
    {
        'pieces: loop {
            if let Some(got) = self.look() {
                return Ok(got);
            }
            if self.fetch(files)? == 0 {
                return Ok(self.end_text());
            }
        }
    }

    // Reads the next piece. Most lines want none, so this stands apart from them.
    #[inline(never)]
    fn fetch<F: Files>(&mut self, files: &mut F) -> Result<usize, Failed>
        requires all_looked_at { self.old.from ≡ self.old.upto }
        requires not_large { self.old.at ≤ self.old.limits.largest }
        ensures reads { IsTrue (F.tells files.old) → (text : List ℕ) → F.held files.old (name_of self.old) ≡ Some text →
            IsReading self.old text → IsReading self.new text }
        ensures end { IsTrue (F.tells files.old) → (text : List ℕ) → F.held files.old (name_of self.old) ≡ Some text →
            IfOk result (λ n. n ≡ 0 → length text ≤ self.new.at) }
        ensures found { IsTrue (F.tells files.old) → OnOk result (IsSome (F.held files.old (name_of self.old))) }
        ensures same_line { begin_of self.new ≡ begin_of self.old }
        ensures read { IfOk result (λ n. self.new.at ≡ self.old.at + n) }
        ensures nothing { IfOk result (λ n. n ≡ 0 → self.new.from ≡ self.new.upto) }
        ensures nothing_read { OnErr result (self.new.at ≡ self.old.at) }
        ensures fault { OnErr result (Rose (F.faults files.old (name_of self.old)) (F.faults files.new (name_of self.old))) }
        ensures exact { OnOk result (CountsStay (F.faults files.old) (F.faults files.new)) }
        ensures counts { (other : List ℕ) → F.faults files.old other ≤ F.faults files.new other }
        ensures kept { F.held files.new ≡ F.held files.old }
        ensures telling { F.tells files.new ≡ F.tells files.old }
        ensures name { self.new.name ≡ self.old.name }
        ensures limits { self.new.limits ≡ self.old.limits }
    {
        self.from = 0;
        self.upto = 0;
        let n = files.read_at(self.name.as_str(), self.at, &mut self.piece)?;
        self.at += n as u64;
        self.upto = n;
        Ok(n)
    }

    // The text ends.
    fn end_text(&mut self) -> Got
        requires all_looked_at { self.old.from ≡ self.old.upto }
        requires not_large { self.old.at ≤ self.old.limits.largest }
        ensures reads { (text : List ℕ) → IsReading self.old text → IsReading self.new text }
        ensures goes_on { GoesOn result self.old self.new }
        ensures gives { (text : List ℕ) → IsReading self.old text → length text ≤ self.old.at → Gives (left self.old text) result (line_of self.new) (left self.new text) }
        ensures nothing_read { self.new.at ≡ self.old.at }
        ensures name { self.new.name ≡ self.old.name }
        ensures limits { self.new.limits ≡ self.old.limits }
    {
        let size = self.count;
        self.count = 0;
        if size == 0 {
            return Got::End;
        }
        if size > self.limits.longest as usize {
            return Got::TooLong;
        }
        self.in_piece = false;
        self.begin = 0;
        self.end = size;
        Got::LastLine
    }

    // Looks at the bytes that are held. None: the line goes on after them.
    #[inline(always)]
    fn look(&mut self) -> Option<Got>
        ensures reads { (text : List ℕ) → IsReading self.old text → IsReading self.new text }
        ensures gives { IfSome result (λ got. (text : List ℕ) → IsReading self.old text →
            Gives (left self.old text) got (line_of self.new) (left self.new text)) }
        ensures goes_on { IfSome result (λ got. GoesOn got self.old self.new) }
        ensures same_line { IfNone result (begin_of self.new ≡ begin_of self.old) }
        ensures all_looked_at { IfNone result (self.new.from ≡ self.new.upto) }
        ensures not_large { IfNone result (self.new.at ≤ self.old.limits.largest) }
        ensures nothing_read { self.new.at ≡ self.old.at }
        ensures begun { OnSome result (0 < self.old.at) }
        ensures name { self.new.name ≡ self.old.name }
        ensures limits { self.new.limits ≡ self.old.limits }
    {
        match line_feed(&self.piece[self.from..self.upto]) {
            Some(n) => Some(self.end_line(n)),
            None => {
                if self.at > u64::from(self.limits.largest) {
                    return Some(Got::TooLarge);
                }
                self.keep_all();
                None
            }
        }
    }

    // The line ends at the line feed at place `n` of what is held.
    fn end_line(&mut self, n: usize) -> Got
        requires held { n < self.old.upto - self.old.from }
        requires feed { slice_index (held_of self.old) n ≡ 10 }
        requires first { HasNoLineFeed (take n (held_of self.old)) }
        ensures reads { (text : List ℕ) → IsReading self.old text → IsReading self.new text }
        ensures gives { (text : List ℕ) → IsReading self.old text → Gives (left self.old text) result (line_of self.new) (left self.new text) }
        ensures goes_on { GoesOn result self.old self.new }
        ensures nothing_read { self.new.at ≡ self.old.at }
        ensures name { self.new.name ≡ self.old.name }
        ensures limits { self.new.limits ≡ self.old.limits }
    {
        let end = self.at - (self.upto - self.from - n - 1) as u64;
        if end > u64::from(self.limits.largest) {
            return Got::TooLarge;
        }
        if self.count + n > self.limits.longest as usize {
            self.from += n + 1;
            self.count = 0;
            return Got::TooLong;
        }
        if self.count == 0 {
            self.show_held(n)
        } else {
            self.show_kept(n)
        }
    }

    // The line that came last stands in the piece, up to the line feed at place `n` of what is held.
    fn show_held(&mut self, n: usize) -> Got
        requires held { n < self.old.upto - self.old.from }
        requires feed { slice_index (held_of self.old) n ≡ 10 }
        requires first { HasNoLineFeed (take n (held_of self.old)) }
        requires whole { self.old.count ≡ 0 }
        requires short { n ≤ self.old.limits.longest }
        requires near { begin_of self.old + n + 1 ≤ self.old.limits.largest }
        ensures reads { (text : List ℕ) → IsReading self.old text → IsReading self.new text }
        ensures gives { (text : List ℕ) → IsReading self.old text → Gives (left self.old text) result (line_of self.new) (left self.new text) }
        ensures goes_on { GoesOn result self.old self.new }
        ensures nothing_read { self.new.at ≡ self.old.at }
        ensures name { self.new.name ≡ self.old.name }
        ensures limits { self.new.limits ≡ self.old.limits }
    {
        self.in_piece = true;
        self.begin = self.from;
        self.end = self.from + stripped(&self.piece[self.from..self.from + n]);
        self.from += n + 1;
        Got::Line
    }

    // The line that came last began in a piece before. What is held of it, up to the line feed at place `n`, is put
    // after what was kept.
    #[cold]
    fn show_kept(&mut self, n: usize) -> Got
        requires held { n < self.old.upto - self.old.from }
        requires feed { slice_index (held_of self.old) n ≡ 10 }
        requires first { HasNoLineFeed (take n (held_of self.old)) }
        requires short { self.old.count + n ≤ self.old.limits.longest }
        requires near { begin_of self.old + (self.old.count + n + 1) ≤ self.old.limits.largest }
        ensures reads { (text : List ℕ) → IsReading self.old text → IsReading self.new text }
        ensures gives { (text : List ℕ) → IsReading self.old text → Gives (left self.old text) result (line_of self.new) (left self.new text) }
        ensures goes_on { GoesOn result self.old self.new }
        ensures nothing_read { self.new.at ≡ self.old.at }
        ensures name { self.new.name ≡ self.old.name }
        ensures limits { self.new.limits ≡ self.old.limits }
    {
        keep(
            &mut self.line,
            self.count,
            &self.piece[self.from..self.from + n],
        );
        self.in_piece = false;
        self.begin = 0;
        self.end = stripped(&self.line[..self.count + n]);
        self.from += n + 1;
        self.count = 0;
        Got::Line
    }

    // All that is held is of the line.
    #[cold]
    fn keep_all(&mut self)
        requires { HasNoLineFeed (held_of self.old) }
        ensures reads { (text : List ℕ) → IsReading self.old text → IsReading self.new text }
        ensures same_line { begin_of self.new ≡ begin_of self.old }
        ensures all_looked_at { self.new.from ≡ self.new.upto }
        ensures nothing_read { self.new.at ≡ self.old.at }
        ensures name { self.new.name ≡ self.old.name }
        ensures limits { self.new.limits ≡ self.old.limits }
    {
        keep(
            &mut self.line,
            self.count,
            &self.piece[self.from..self.upto],
        );
        self.count += self.upto - self.from;
        self.from = self.upto;
    }
}

/// How many bytes of a line are left without a carriage return at its end.
pub fn stripped(line: &[u8]) -> usize
    ensures within { result ≤ length line.now }
    ensures stripped { take result line.now ≡ strip_carriage_return line.now }
{
    match line {
        [rest @ .., b'\r'] => rest.len(),
        _ => line.len(),
    }
}

// Puts a part after the first bytes of a line, if it has room.
fn keep(line: &mut [u8], count: usize, part: &[u8])
    ensures { count + length part.now ≤ length line.old → take (count + length part.now) line.new ≡ take count line.old ++ part.now }
{
    if count <= line.len() && part.len() <= line.len() - count {
        line[count..count + part.len()].copy_from_slice(part);
    }
}
