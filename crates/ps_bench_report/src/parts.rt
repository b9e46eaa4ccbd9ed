// Parts of a page, some of which are several pieces that stand together.

ghost use Rattle.std.specs.List.{flat_map};
ghost use Rattle.ps_bench_report.specs.Paged.{Adds};
ghost use Rattle.ps_bench_report.specs.Parts.{pieces_of};
ghost use Rattle.ps_bench_report.specs.Pieces.{class_pieces};

use crate::names::{Key, Tag};
use crate::page::{Page, Piece};

/// A part of a page: a piece whose value is lent, or several that stand together.
#[derive(Clone, Copy)]
pub(crate) enum Part<'a> {
    /// The beginning of a page, up to its title.
    Prologue,
    /// The end of the head, and the beginning of the body.
    Body,
    /// The end of a page.
    Epilogue,
    /// The beginning of an element, after which its attributes stand.
    Begin(Tag),
    /// An attribute with its value.
    Attribute(Key, &'a [u8]),
    /// The class of an element, which may be none.
    Class(&'a [u8]),
    /// An attribute with a number.
    Number(Key, u32),
    /// The end of the attributes, after which an element has what it holds.
    Inside,
    /// The end of the attributes, and of an element of a picture that holds nothing.
    Alone,
    /// A text.
    Value(&'a [u8]),
    /// The end of an element.
    End(Tag),
    /// The beginning of an element without attributes.
    Open(Tag),
    /// An element without attributes that holds a text.
    Element(Tag, &'a [u8]),
    /// An element with one attribute that holds a text.
    Marked(Tag, Key, &'a [u8], &'a [u8]),
}

// The class of an element, which may be none.
fn add_class(page: &mut Page, class: &[u8])
    ensures { Adds page.old page.new (class_pieces class.now) }
{
    if !class.is_empty() {
        page.attribute(Key::Class, class);
    }
}

// A part at the end of a page.
fn add_part(page: &mut Page, part: &Part<'_>)
    ensures { Adds page.old page.new (pieces_of part.now) }
{
    match part {
        Part::Prologue => page.add(Piece::Prologue),
        Part::Body => page.add(Piece::Body),
        Part::Epilogue => page.add(Piece::Epilogue),
        Part::Begin(tag) => page.add(Piece::Begin(*tag)),
        Part::Attribute(key, value) => page.attribute(*key, *value),
        Part::Class(class) => add_class(page, *class),
        Part::Number(key, number) => page.number(*key, *number),
        Part::Inside => page.add(Piece::Inside),
        Part::Alone => page.add(Piece::Alone),
        Part::Value(value) => page.value(*value),
        Part::End(tag) => page.close(*tag),
        Part::Open(tag) => page.open(*tag),
        Part::Element(tag, value) => page.element(*tag, *value),
        Part::Marked(tag, key, mark, value) => page.marked(*tag, *key, *mark, *value),
    }
}

/// Parts at the end of a page, one after another.
pub(crate) fn add_parts(page: &mut Page, parts: &[Part<'_>])
    ensures { Adds page.old page.new (flat_map pieces_of parts.now) }
{
    for part in parts {
        add_part(page, part);
    }
}
