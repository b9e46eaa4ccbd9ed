// What is being made: a text, a list and an object of JSON, which each notes if memory ran out for it.
//
// One for which it did is not whole, stays so, and is never given: whoever makes it learns of that at its end alone.

ghost use Rattle.std.specs.Prelude.{◌≡◌, [], ◌∷◌, ◌++◌, ℕ, List, IsTrue, IfOk, OnErr, false, decimal};
ghost use Rattle.serde_json.specs.Data.{no_members, number, object, string, unsigned};
ghost use Rattle.serde_json.specs.View.{view};
ghost use Rattle.ps_lsp_text.specs.Made.{Adds, Extends, Puts, members};
ghost use Rattle.ps_text.specs.Shown.{first_shown};

use ps_base::{Bytes, Memory};
use ps_text::{add_first, add_number};
use serde_json::{Map, Value};
use std::alloc::Global;

/// A text that is being made.
pub(crate) struct MadeText {
    bytes: Bytes,
    is_whole: bool,
}

impl MadeText {
    /// The text that begins with these bytes.
    pub(crate) fn of(bytes: Bytes) -> MadeText
        ensures { result.bytes ≡ bytes }
    {
        MadeText {
            bytes,
            is_whole: true,
        }
    }

    /// Memory ran out for something that belongs to the text.
    pub(crate) fn spoil(&mut self)
        ensures { (more : List ℕ) → Extends self.old self.new more }
    {
        self.is_whole = false;
    }

    /// These bytes at the end.
    pub(crate) fn add(&mut self, bytes: &[u8])
        ensures { Extends self.old self.new bytes.now }
    {
        if self.bytes.extend_from_slice(bytes).is_err() {
            self.is_whole = false;
        }
    }

    /// A mark and a number at the end.
    pub(crate) fn add_number(&mut self, mark: &[u8], number: u32)
        ensures { Extends self.old self.new (mark.now ++ decimal number) }
    {
        if add_number(&mut self.bytes, mark, number).is_err() {
            self.is_whole = false;
        }
    }

    /// The first bytes of these at the end, at most so many, and dots for the others.
    pub(crate) fn add_first(&mut self, bytes: &[u8], most: usize)
        ensures { Extends self.old self.new (first_shown most bytes.now) }
    {
        if add_first(&mut self.bytes, bytes, most).is_err() {
            self.is_whole = false;
        }
    }

    /// The text, if it is whole.
    pub(crate) fn finish(self) -> Result<Bytes, Memory>
        ensures { IfOk result (λ bytes. IsTrue self.is_whole × (bytes ≡ self.bytes)) }
    {
        let MadeText { bytes, is_whole } = self;
        if is_whole { Ok(bytes) } else { Err(Memory) }
    }
}

/// A list that is being made.
pub(crate) struct MadeList<T> {
    list: Vec<T>,
    is_whole: bool,
}

impl<T: Drop> MadeList<T> {
    /// No items. It takes no memory.
    pub(crate) fn new(alloc: Global) -> MadeList<T>
        ensures { result.list.items ≡ [] }
    {
        MadeList {
            list: Vec::new(alloc),
            is_whole: true,
        }
    }

    /// One more item, if there was memory for it.
    pub(crate) fn add(&mut self, item: Result<T, Memory>)
        ensures adds { IfOk item (λ x. Adds self.old.is_whole self.new.is_whole
            self.old.list.items self.new.list.items (x ∷ [])) }
        ensures spoilt { OnErr item (self.new.is_whole ≡ false) }
    {
        match item {
            Ok(item) => {
                if self.list.push(item).is_err() {
                    self.is_whole = false;
                }
            }
            Err(Memory) => self.is_whole = false,
        }
    }

    /// The items so far.
    pub(crate) fn as_slice(&self) -> &[T]
        ensures { result.now ≡ self.now.list.items }
    {
        self.list.as_slice()
    }

    /// The list, if it is whole.
    pub(crate) fn finish(self) -> Result<Vec<T>, Memory>
        ensures { IfOk result (λ list. IsTrue self.is_whole × (list.items ≡ self.list.items)) }
    {
        let MadeList { list, is_whole } = self;
        if is_whole { Ok(list) } else { Err(Memory) }
    }
}

/// An object of JSON that is being made.
pub(crate) struct MadeObject {
    alloc: Global,
    map: Map<String, Value>,
    is_whole: bool,
}

impl MadeObject {
    /// No members. It takes no memory.
    pub(crate) fn new(alloc: Global) -> MadeObject
        ensures { members result ≡ no_members }
    {
        MadeObject {
            alloc,
            map: Map::new(alloc),
            is_whole: true,
        }
    }

    /// One more member.
    pub(crate) fn put(&mut self, key: &str, value: Value)
        ensures { Puts self.old self.new key.now (view value) }
    {
        if serde_json::put(&mut self.map, self.alloc, key, value).is_err() {
            self.is_whole = false;
        }
    }

    /// One more member, if there was memory for its value.
    pub(crate) fn put_made(&mut self, key: &str, value: Result<Value, Memory>) {
        match value {
            Ok(value) => self.put(key, value),
            Err(Memory) => self.is_whole = false,
        }
    }

    /// One more member, which is a text.
    pub(crate) fn put_text(&mut self, key: &str, text: &str)
        ensures { Puts self.old self.new key.now (string text.now) }
    {
        match String::from_str(self.alloc, text) {
            Ok(text) => self.put(key, Value::String(text)),
            Err(_) => self.is_whole = false,
        }
    }

    /// One more member, which is a number.
    pub(crate) fn put_number(&mut self, key: &str, count: u32)
        ensures { Puts self.old self.new key.now (number (unsigned count)) }
    {
        self.put(key, Value::from(count));
    }

    /// The object, if it is whole.
    pub(crate) fn finish(self) -> Result<Value, Memory>
        ensures { IfOk result (λ v. IsTrue self.is_whole × (view v ≡ object (members self))) }
    {
        let MadeObject {
            alloc: _,
            map,
            is_whole,
        } = self;
        if is_whole {
            Ok(Value::Object(map))
        } else {
            Err(Memory)
        }
    }
}
