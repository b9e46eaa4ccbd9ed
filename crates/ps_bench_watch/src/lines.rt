// The reader of the lines of a stream. The bytes that it holds are those of its line, and of lines after it.

ghost use Rattle.std.specs.Prelude.{◌≡◌, ◌≤◌, ◌<◌, ◌+◌, ◌-◌, ◌++◌, [], ℕ, List, IsTrue, Ok, length, take, drop};
ghost use Rattle.std.specs.Prelude.{vec_len, slice_index, IfOk, OnOk, OnErr, IfSome, IfNone};
ghost use Rattle.ps_lines.specs.Lines.{HasNoLineFeed};
ghost use Rattle.ps_outside.specs.Outside.{Rose};

use crate::{Came, Stream, at_end, is_too_long};
use ps_base::Memory;
use ps_lines::{line_feed, stripped};
use ps_outside::Failed;
use std::alloc::Global;

// How many places there are beside those of the longest line.
const PIECE: usize = 4096;

/// A reader of the lines of one stream. All memory that it uses is taken by `start`.
pub(crate) struct StreamLines {
    // the most bytes of a line, without its line feed
    longest: u32,
    // those from `from` to `upto` are held; no line feed stands before `looked`
    bytes: Vec<u8>,
    from: usize,
    looked: usize,
    upto: usize,
    // the line that came last
    begin: usize,
    end: usize,
    ghost room: { vec_len bytes ≡ longest + 4096 },
    ghost in_order: { from ≤ looked },
    ghost held: { looked ≤ upto },
    ghost within: { upto ≤ vec_len bytes },
    ghost none: { HasNoLineFeed (take (looked - from) (drop from bytes.items)) },
    ghost shown: { begin ≤ end },
    ghost shown_within: { end ≤ vec_len bytes },
}

impl Drop for StreamLines {
    // One call for whoever owns one, in place of a walk through all that it holds.
    fn drop(self) {
        let StreamLines {
            longest: _,
            bytes: _,
            from: _,
            looked: _,
            upto: _,
            begin: _,
            end: _,
        } = self;
    }
}

impl StreamLines {
    ghost use Rattle.ps_bench_watch.specs.Reading.{Gives, held_of, left, line_of, longest_of};

    /// A reader of the lines of a stream, of which nothing was read so far. A line has at most `longest` bytes.
    ///
    /// It takes all memory that the reader will use: one line of the longest length, and 4,096 bytes.
    pub(crate) fn start(alloc: Global, longest: u32) -> Result<StreamLines, Memory>
        ensures longest { IfOk result (λ lines. longest_of lines ≡ longest) }
        ensures fresh { IfOk result (λ lines. held_of lines ≡ []) }
    {
        Ok(StreamLines {
            longest,
            bytes: vec![in alloc; 0; longest as usize + PIECE]?,
            from: 0,
            looked: 0,
            upto: 0,
            begin: 0,
            end: 0,
        })
    }

    /// The line that came last, without its line feed and a carriage return before that.
    pub(crate) fn line(&self) -> &[u8]
        ensures { result.now ≡ line_of self.now }
    {
        &self.bytes[self.begin..self.end]
    }

    /// The next line, as soon as its line feed is there, or the stream's end. A line that is longer than the limit is
    /// told as soon as that is known.
    ///
    /// It reads only while no whole line is held, so where a read fails every whole line that was read has come.
    /// `Failed` comes only where the stream's count rose in this call, at the one read that failed, and a later call
    /// goes on with the same line; with everything else the count is as it was. It takes no memory.
    pub(crate) fn next_line<S: Stream>(&mut self, input: &mut S) -> Result<Came, Failed>
        ensures gives { IsTrue (S.tells input.old) → IfOk result (λ came.
            Gives (left self.old (S.coming input.old)) came (line_of self.new) (left self.new (S.coming input.new))) }
        ensures all_came { OnErr result (HasNoLineFeed (held_of self.new)) }
        ensures same_line { IsTrue (S.tells input.old) →
            OnErr result (left self.new (S.coming input.new) ≡ left self.old (S.coming input.old)) }
        ensures failed { OnErr result (Rose (S.faults input.old) (S.faults input.new)) }
        ensures exact { OnOk result (S.faults input.new ≡ S.faults input.old) }

        ensures counts { S.faults input.old ≤ S.faults input.new }
        ensures telling { S.tells input.new ≡ S.tells input.old }
        ensures longest { longest_of self.new ≡ longest_of self.old }
    {
        'pieces: loop {
            if let Some(came) = self.look() {
                return Ok(came);
            }
            if self.fetch(input)? == 0 {
                return Ok(self.end_text());
            }
        }
    }

    // Looks at the bytes that are held. None: the line goes on after them.
    fn look(&mut self) -> Option<Came>
        ensures gives { IfSome result (λ came. (coming : List ℕ) →
            Gives (left self.old coming) came (line_of self.new) (left self.new coming)) }
        ensures none { IfNone result (HasNoLineFeed (held_of self.new)) }
        ensures same { IfNone result (held_of self.new ≡ held_of self.old) }
        ensures all_looked_at { IfNone result (self.new.looked ≡ self.new.upto) }
        ensures short { IfNone result (self.new.upto - self.new.from ≤ self.new.longest) }
        ensures size { IfNone result (self.new.upto - self.new.from ≡ self.old.upto - self.old.from) }
        ensures longest { self.new.longest ≡ self.old.longest }
    {
        match line_feed(&self.bytes[self.looked..self.upto]) {
            Some(n) => Some(self.end_line(self.looked + n)),
            None => {
                self.looked = self.upto;
                if is_too_long(self.upto - self.from, self.longest) {
                    return Some(Came::TooLong);
                }
                None
            }
        }
    }

    // The line ends at the line feed at this place.
    fn end_line(&mut self, feed: usize) -> Came
        requires behind { self.old.from ≤ feed }
        requires held { feed < self.old.upto }
        requires feed { slice_index self.old.bytes.items feed ≡ 10 }
        requires first { HasNoLineFeed (take (feed - self.old.from) (drop self.old.from self.old.bytes.items)) }
        ensures gives { (coming : List ℕ) →
            Gives (left self.old coming) result (line_of self.new) (left self.new coming) }
        ensures longest { self.new.longest ≡ self.old.longest }
    {
        let from = self.from;
        self.from = feed + 1;
        self.looked = feed + 1;
        if is_too_long(feed - from, self.longest) {
            return Came::TooLong;
        }
        self.begin = from;
        self.end = from + stripped(&self.bytes[from..feed]);
        Came::Line
    }

    // Reads what is there, after what is held.
    fn fetch<S: Stream>(&mut self, input: &mut S) -> Result<usize, Failed>
        requires all_looked_at { self.old.looked ≡ self.old.upto }
        requires short { self.old.upto - self.old.from ≤ self.old.longest }
        ensures same { IsTrue (S.tells input.old) →
            held_of self.new ++ S.coming input.new ≡ held_of self.old ++ S.coming input.old }
        ensures end { IsTrue (S.tells input.old) → result ≡ Ok 0 → S.coming input.new ≡ [] }
        ensures grows { IfOk result (λ n. self.new.upto - self.new.from ≡ self.old.upto - self.old.from + n) }
        ensures stays { result ≡ Ok 0 → held_of self.new ≡ held_of self.old }
        ensures stays_looked_at { result ≡ Ok 0 → self.new.looked ≡ self.new.upto }
        ensures none { OnErr result (held_of self.new ≡ held_of self.old) }
        ensures failed { OnErr result (Rose (S.faults input.old) (S.faults input.new)) }
        ensures exact { OnOk result (S.faults input.new ≡ S.faults input.old) }
        ensures counts { S.faults input.old ≤ S.faults input.new }
        ensures telling { S.tells input.new ≡ S.tells input.old }
        ensures longest { self.new.longest ≡ self.old.longest }
    {
        self.move_down();
        match input.read_some(&mut self.bytes[self.upto..]) {
            Ok(n) => {
                self.upto += n;
                Ok(n)
            }
            Err(Failed) => Err(Failed),
        }
    }

    // What is held is moved to the first places.
    fn move_down(&mut self)
        requires all_looked_at { self.old.looked ≡ self.old.upto }
        ensures same { held_of self.new ≡ held_of self.old }
        ensures first { self.new.from ≡ 0 }
        ensures size { self.new.upto ≡ self.old.upto - self.old.from }
        ensures all_looked_at { self.new.looked ≡ self.new.upto }
        ensures longest { self.new.longest ≡ self.old.longest }
    {
        self.bytes.copy_within(self.from..self.upto, 0);
        self.upto -= self.from;
        self.looked = self.upto;
        self.from = 0;
    }

    // The stream ends.
    fn end_text(&mut self) -> Came
        requires none { HasNoLineFeed (held_of self.old) }
        requires all_looked_at { self.old.looked ≡ self.old.upto }
        requires short { self.old.upto - self.old.from ≤ self.old.longest }
        ensures gives { Gives (left self.old []) result (line_of self.new) (left self.new []) }
        ensures longest { self.new.longest ≡ self.old.longest }
    {
        let came = at_end(self.upto - self.from);
        self.begin = self.from;
        self.end = self.upto;
        self.from = self.upto;
        came
    }
}
