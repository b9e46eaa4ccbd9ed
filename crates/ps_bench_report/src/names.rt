// The elements and attributes that a page may have.

ghost use Rattle.std.specs.Prelude.{◌≡◌};
ghost use Rattle.ps_bench_report.specs.Names.{key_name, tag_name};

/// An element of HTML (the WHATWG standard), or of SVG 1.1 within it.
#[derive(Clone, Copy)]
pub(crate) enum Tag {
    /// The title of the page, or of a picture.
    Title,
    /// What the page is about.
    Main,
    /// A part of the page with a heading.
    Section,
    /// The heading of the page.
    H1,
    /// The heading of a part.
    H2,
    /// The heading of a part within a part.
    H3,
    /// A paragraph.
    P,
    /// A text that keeps its blanks and lines.
    Pre,
    /// Words within a text.
    Span,
    /// A list whose order has no meaning.
    Ul,
    /// An entry of a list.
    Li,
    /// A table.
    Table,
    /// The heading of a table.
    Caption,
    /// The rows of a table that name its columns.
    Thead,
    /// The rows of a table that hold its values.
    Tbody,
    /// A row of a table.
    Tr,
    /// A cell that names a row or a column.
    Th,
    /// A cell that holds a value.
    Td,
    /// A picture with its words.
    Figure,
    /// The words of a picture.
    Figcaption,
    /// A picture in lines.
    Svg,
    /// What a picture shows, in words.
    Desc,
    /// A group of lines and texts of a picture.
    G,
    /// A box.
    Rect,
    /// Lines and curves.
    Path,
    /// A text in a picture.
    Text,
}

/// An attribute of an element.
#[derive(Clone, Copy)]
pub(crate) enum Key {
    /// How it is to look, by the style of the page.
    Class,
    /// Its name within the page.
    Id,
    /// What a cell names: `row` or `col`.
    Scope,
    /// What it is to who cannot see it.
    Role,
    /// The element that names it, by its `Id`.
    LabelledBy,
    /// The place of its left side.
    X,
    /// The place of its upper side.
    Y,
    /// How wide it is.
    Width,
    /// How high it is.
    Height,
    /// The lines of a path.
    D,
    /// Which part of a picture is seen.
    ViewBox,
}

/// The name of an element.
pub(crate) fn tag_name(tag: Tag) -> &'static [u8]
    ensures { result.now ≡ tag_name tag }
{
    match tag {
        Tag::Title => b"title",
        Tag::Main => b"main",
        Tag::Section => b"section",
        Tag::H1 => b"h1",
        Tag::H2 => b"h2",
        Tag::H3 => b"h3",
        Tag::P => b"p",
        Tag::Pre => b"pre",
        Tag::Span => b"span",
        Tag::Ul => b"ul",
        Tag::Li => b"li",
        Tag::Table => b"table",
        Tag::Caption => b"caption",
        Tag::Thead => b"thead",
        Tag::Tbody => b"tbody",
        Tag::Tr => b"tr",
        Tag::Th => b"th",
        Tag::Td => b"td",
        Tag::Figure => b"figure",
        Tag::Figcaption => b"figcaption",
        Tag::Svg => b"svg",
        Tag::Desc => b"desc",
        Tag::G => b"g",
        Tag::Rect => b"rect",
        Tag::Path => b"path",
        Tag::Text => b"text",
    }
}

/// The name of an attribute.
pub(crate) fn key_name(key: Key) -> &'static [u8]
    ensures { result.now ≡ key_name key }
{
    match key {
        Key::Class => b"class",
        Key::Id => b"id",
        Key::Scope => b"scope",
        Key::Role => b"role",
        Key::LabelledBy => b"aria-labelledby",
        Key::X => b"x",
        Key::Y => b"y",
        Key::Width => b"width",
        Key::Height => b"height",
        Key::D => b"d",
        Key::ViewBox => b"viewBox",
    }
}
