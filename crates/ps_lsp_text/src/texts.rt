// The texts that are open.

ghost use Rattle.std.specs.Prelude.{◌≡◌, ◌<◌, ℕ, List, IfSome, OnOk, None, option_map, vec_len};
ghost use Rattle.ps_lsp_text.specs.Texts.{earlier, held, is_named, parsed_of};

use ps_base::{Bytes, Memory};
use std::alloc::Global;

/// The most texts that are held.
pub const MOST_TEXTS: usize = 256;

// A text under its name, whether it parses, and else the last one before it that did.
struct Text {
    uri: String,
    bytes: Bytes,
    parses: bool,
    before: Option<Bytes>,
}

impl Drop for Text {
    // One call for whoever owns one, in place of a walk through all that it holds.
    fn drop(self) {
        let Text {
            uri: _,
            bytes: _,
            parses: _,
            before: _,
        } = self;
    }
}

impl Text {
    // Whether a name is that of the text.
    fn is_named(&self, uri: &str) -> bool
        ensures { result ≡ is_named uri.now self.now }
    {
        self.uri.as_str() == uri
    }

    // The bytes of the last text up to this one that parsed.
    fn into_parsed(self) -> Option<Bytes>
        ensures { result ≡ parsed_of self }
    {
        let Text {
            uri: _,
            bytes,
            parses,
            before,
        } = self;
        if parses { Some(bytes) } else { before }
    }
}

/// The texts that are open, at most `MOST_TEXTS` of them, the newest first.
#[derive(Drop)]
pub struct Texts {
    list: Vec<Text>,
}

impl Texts {
    /// No texts. It takes no memory.
    pub fn new(alloc: Global) -> Texts {
        Texts {
            list: Vec::new(alloc),
        }
    }

    // The number of the text of a name.
    fn number_of(&self, uri: &str) -> Option<usize>
        ensures { IfSome result (λ number. number < vec_len self.now.list) }
    {
        self.list.iter().position(|text| text.is_named(uri))
    }

    /// The text of a name, if it is open.
    pub fn text_of(&self, uri: &str) -> Option<&[u8]>
        ensures { option_map (λ text. text.now) result ≡ held self.now uri.now }
    {
        'texts: for text in &self.list {
            if text.is_named(uri) {
                return Some(text.bytes.as_slice());
            }
        }
        None
    }

    /// The last text of a name that parsed, if the one that is held does not and one before it did.
    pub fn earlier_of(&self, uri: &str) -> Option<&[u8]>
        ensures { option_map (λ text. text.now) result ≡ earlier self.now uri.now }
    {
        'texts: for text in &self.list {
            if text.is_named(uri) {
                if text.parses {
                    return None;
                }
                return Some(text.before.as_ref()?.as_slice());
            }
        }
        None
    }

    // Lets the text of a name go, and says the last one that parsed.
    fn take(&mut self, uri: &str) -> Option<Bytes> {
        let number = self.number_of(uri)?;
        self.list.remove(number).into_parsed()
    }

    /// Holds these bytes as the text of a name, which is not known to parse; the last one before it that did stays
    /// known. Where as many are held as may be, the oldest one is let go.
    pub fn hold(&mut self, alloc: Global, uri: &str, bytes: &[u8]) -> Result<(), Memory>
        ensures { OnOk result (held self.new uri.now ≡ Some bytes.now) }
    {
        let before = self.take(uri);
        if self.list.len() >= MOST_TEXTS {
            self.list.pop();
        }
        let text = Text {
            uri: String::from_str(alloc, uri)?,
            bytes: Bytes::from_slice(alloc, bytes)?,
            parses: false,
            before,
        };
        self.list.insert(0, text)?;
        Ok(())
    }

    /// Notes that the text of a name parses. What is held stays.
    pub fn note_parsed(&mut self, uri: &str)
        ensures { (name : List ℕ) → held self.new name ≡ held self.old name }
    {
        if let Some(number) = self.number_of(uri) {
            self.list[number].parses = true;
        }
    }

    /// Lets the text of a name go.
    pub fn let_go(&mut self, uri: &str) {
        self.take(uri);
    }
}
