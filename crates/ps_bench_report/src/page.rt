// The pieces of a page, and a page that is made of them.

ghost use Rattle.std.specs.Prelude.{◌≡◌, [], ◌∷◌, true, false, IsTrue, decimal};
ghost use Rattle.ps_bench_report.specs.Paged.{Adds};
ghost use Rattle.ps_bench_report.specs.Pieces.{element, marked};

use crate::names::{Key, Tag};
use itoa::Buffer;
use ps_base::{Bytes, Memory};
use std::alloc::Global;
use std::marker::Model;

/// A piece of a page.
#[derive(Drop)]
pub(crate) enum Piece {
    /// The beginning of a page up to the style and on into its head, which is to go on with a title.
    Prologue,
    /// The end of the head, and the beginning of the body.
    Body,
    /// The end of the page.
    Epilogue,
    /// The beginning of an element, after which its attributes stand.
    Begin(Tag),
    /// An attribute with its value.
    Attribute(Key, Bytes),
    /// The end of the attributes, after which an element has what it holds.
    Inside,
    /// The end of the attributes, and of an element of a picture that holds nothing.
    Alone,
    /// A text.
    Value(Bytes),
    /// The end of an element.
    End(Tag),
}

/// A page, which contracts see as the list of its pieces, and whether it has all of them: one for which memory was
/// wanting is not whole, and stays so.
#[derive(Drop)]
pub(crate) struct Page {
    alloc: Global,
    pieces: Vec<Piece>,
    is_whole: bool,
}

impl Model for Page {
    ghost use Rattle.std.specs.Prelude.{List};
    ghost use Rattle.ps_bench_report.specs.Paged.{Paged};

    ghost Value = { Paged };

    ghost view = { λ page. record { pieces = page.pieces.items; whole = page.is_whole } };
}

impl Page {
    /// No pieces. It takes no memory.
    pub(crate) fn new(alloc: Global) -> Page
        ensures { result ≡ record { pieces = []; whole = true } }
    {
        Page {
            alloc,
            pieces: Vec::new(alloc),
            is_whole: true,
        }
    }

    /// The pieces.
    pub(crate) fn pieces(&self) -> &[Piece]
        ensures { result.now ≡ self.now.pieces }
    {
        self.pieces.as_slice()
    }

    /// Whether it has all that was added to it.
    pub(crate) fn is_whole(&self) -> bool
        ensures { result ≡ self.now.whole }
    {
        self.is_whole
    }

    /// Memory ran out for something that belongs to the page: it is not whole.
    pub(crate) fn spoil(&mut self)
        ensures { self.new.whole ≡ false }
    {
        self.is_whole = false;
    }

    /// One more piece.
    pub(crate) fn add(&mut self, piece: Piece)
        ensures { Adds self.old self.new (piece ∷ []) }
    {
        if self.pieces.push(piece).is_err() {
            self.is_whole = false;
        }
    }

    /// The pieces of another page at the end. The page is whole only if the other one is.
    pub(crate) fn join(&mut self, other: Page)
        ensures pieces { Adds self.old self.new other.pieces }
        ensures whole { IsTrue self.new.whole → IsTrue other.whole }
    {
        let mut other = other;
        if !other.is_whole || self.pieces.append(&mut other.pieces).is_err() {
            self.is_whole = false;
        }
    }

    /// An attribute with this value.
    pub(crate) fn attribute(&mut self, key: Key, value: &[u8])
        ensures { Adds self.old self.new (Piece.Attribute key value.now ∷ []) }
    {
        match Bytes::from_slice(self.alloc, value) {
            Ok(value) => self.add(Piece::Attribute(key, value)),
            Err(Memory) => self.is_whole = false,
        }
    }

    /// An attribute with a number.
    pub(crate) fn number(&mut self, key: Key, number: u32)
        ensures { Adds self.old self.new (Piece.Attribute key (decimal number) ∷ []) }
    {
        let mut digits = Buffer::new();
        self.attribute(key, digits.format(number).as_bytes());
    }

    /// A text.
    pub(crate) fn value(&mut self, value: &[u8])
        ensures { Adds self.old self.new (Piece.Value value.now ∷ []) }
    {
        match Bytes::from_slice(self.alloc, value) {
            Ok(value) => self.add(Piece::Value(value)),
            Err(Memory) => self.is_whole = false,
        }
    }

    /// The beginning of an element without attributes.
    pub(crate) fn open(&mut self, tag: Tag)
        ensures { Adds self.old self.new (Piece.Begin tag ∷ Piece.Inside ∷ []) }
    {
        self.add(Piece::Begin(tag));
        self.add(Piece::Inside);
    }

    /// The beginning of an element with one attribute.
    pub(crate) fn open_with(&mut self, tag: Tag, key: Key, value: &[u8])
        ensures { Adds self.old self.new (Piece.Begin tag ∷ Piece.Attribute key value.now ∷ Piece.Inside ∷ []) }
    {
        self.add(Piece::Begin(tag));
        self.attribute(key, value);
        self.add(Piece::Inside);
    }

    /// The end of an element.
    pub(crate) fn close(&mut self, tag: Tag)
        ensures { Adds self.old self.new (Piece.End tag ∷ []) }
    {
        self.add(Piece::End(tag));
    }

    /// An element without attributes that holds a text.
    pub(crate) fn element(&mut self, tag: Tag, value: &[u8])
        ensures { Adds self.old self.new (element tag value.now) }
    {
        self.open(tag);
        self.value(value);
        self.close(tag);
    }

    /// An element with one attribute that holds a text.
    pub(crate) fn marked(&mut self, tag: Tag, key: Key, mark: &[u8], value: &[u8])
        ensures { Adds self.old self.new (marked tag key mark.now value.now) }
    {
        self.open_with(tag, key, mark);
        self.value(value);
        self.close(tag);
    }
}
