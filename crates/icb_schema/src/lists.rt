//! Lists that contracts see as lists: of bytes, of texts, and a text.
ghost use Rattle.std.specs.Prelude.{◌≡◌, [], ◌∷◌, ◌++◌, IfOk, IsTrue, OnErr, OnOk, string_bytes, take};
ghost use Rattle.std.specs.Str.{is_utf8};

use std::alloc::{AllocError, AllocFailed, Global};
use std::marker::Model;

/// No memory was left.
#[derive(Clone, Copy, Debug, PartialEq, Eq)]
pub struct NoMemory;

impl From<AllocError> for NoMemory {
    fn from(_: AllocError) -> Self {
        NoMemory
    }
}

impl<T: Drop> From<AllocFailed<T>> for NoMemory {
    fn from(_: AllocFailed<T>) -> Self {
        NoMemory
    }
}

/// A text, seen as the list of its bytes in UTF-8.
#[derive(Debug, Drop)]
pub struct Text {
    text: String,
}

impl Model for Text {
    ghost use Rattle.std.specs.Prelude.{List, ℕ, string_bytes};

    ghost Value = { List ℕ };

    ghost view = { λ text. string_bytes text.text };
}

impl Text {
    /// A text of its own with these bytes.
    pub fn from_str(alloc: Global, text: &str) -> Result<Self, NoMemory>
        ensures { IfOk result (λ copy. copy ≡ text.now) }
    {
        let text = String::from_str(alloc, text)?;
        Ok(Text { text })
    }

    /// This text, in its memory.
    pub fn from_string(text: String) -> Self
        ensures { result ≡ string_bytes text }
    {
        Text { text }
    }

    /// The text, in the value's memory.
    pub fn into_string(self) -> String
        ensures { string_bytes result ≡ self }
    {
        let Text { text } = self;
        text
    }

    /// The text.
    pub fn as_str(&self) -> &str
        ensures { result.now ≡ self.now }
    {
        self.text.as_str()
    }

    /// The text's bytes, which are UTF-8.
    pub fn as_slice(&self) -> &[u8]
        ensures value { result.now ≡ self.now }
        ensures utf8 { IsTrue (is_utf8 self.now) }
    {
        let text = self.as_str();
        text.as_bytes()
    }

    /// A second text of the same bytes.
    pub fn copy(&self, alloc: Global) -> Result<Self, NoMemory>
        ensures { IfOk result (λ copy. copy ≡ self.now) }
    {
        Text::from_str(alloc, self.as_str())
    }
}

/// A list of bytes.
#[derive(Debug, Drop)]
pub struct Octets {
    items: Vec<u8>,
}

impl Model for Octets {
    ghost use Rattle.std.specs.Prelude.{List, ℕ};

    ghost Value = { List ℕ };

    ghost view = { λ octets. octets.items.items };
}

impl Octets {
    /// The empty list. It takes no memory and keeps the allocator for when it grows.
    pub fn new(alloc: Global) -> Self
        ensures { result ≡ [] }
    {
        Octets {
            items: Vec::new(alloc),
        }
    }

    /// The list of these bytes, in their memory.
    pub fn from_vec(items: Vec<u8>) -> Self
        ensures { result ≡ items.items }
    {
        Octets { items }
    }

    /// A list of its own of these bytes.
    pub fn from_slice(alloc: Global, bytes: &[u8]) -> Result<Self, NoMemory>
        ensures { IfOk result (λ list. list ≡ bytes.now) }
    {
        let items = bytes.to_vec(alloc)?;
        Ok(Octets { items })
    }

    /// The bytes, in the list's memory.
    pub fn into_vec(self) -> Vec<u8>
        ensures { result.items ≡ self }
    {
        let Octets { items } = self;
        items
    }

    /// The bytes.
    pub fn as_slice(&self) -> &[u8]
        ensures { result.now ≡ self.now }
    {
        self.items.as_slice()
    }

    /// A second list of the same bytes.
    pub fn copy(&self, alloc: Global) -> Result<Self, NoMemory>
        ensures { IfOk result (λ list. list ≡ self.now) }
    {
        Octets::from_slice(alloc, self.as_slice())
    }

    /// Adds a byte at the end; after the refusal the list is as before.
    pub fn push(&mut self, item: u8) -> Result<(), NoMemory>
        ensures ok { OnOk result (self.new ≡ self.old ++ item ∷ []) }
        ensures err { OnErr result (self.new ≡ self.old) }
    {
        self.items.push(item)?;
        Ok(())
    }

    /// Adds bytes at the end; after the refusal the list is as before.
    pub fn extend_from_slice(&mut self, bytes: &[u8]) -> Result<(), NoMemory>
        ensures ok { OnOk result (self.new ≡ self.old ++ bytes.now) }
        ensures err { OnErr result (self.new ≡ self.old) }
    {
        self.items.extend_from_slice(bytes)?;
        Ok(())
    }

    /// Keeps the first bytes, up to this many. It takes no memory.
    pub fn truncate(&mut self, length: usize)
        ensures { self.new ≡ take length self.old }
    {
        self.items.truncate(length);
    }
}

/// A list of texts.
#[derive(Debug, Drop)]
pub struct Names {
    items: Vec<Text>,
}

impl Model for Names {
    ghost use Rattle.std.specs.Prelude.{List, ℕ};

    ghost Value = { List (List ℕ) };

    ghost view = { λ names. names.items.items };
}

impl Names {
    /// The empty list. It takes no memory and keeps the allocator for when it grows.
    pub fn new(alloc: Global) -> Self
        ensures { result ≡ [] }
    {
        Names {
            items: Vec::new(alloc),
        }
    }

    /// The list of these texts, in their memory.
    pub fn from_vec(items: Vec<Text>) -> Self
        ensures { result ≡ items.items }
    {
        Names { items }
    }

    /// The texts, in the list's memory.
    pub fn into_vec(self) -> Vec<Text>
        ensures { result.items ≡ self }
    {
        let Names { items } = self;
        items
    }

    /// The texts.
    pub fn as_slice(&self) -> &[Text]
        ensures { result.now ≡ self.now }
    {
        self.items.as_slice()
    }

    /// A second list of the same texts.
    pub fn copy(&self, alloc: Global) -> Result<Self, NoMemory>
        ensures { IfOk result (λ list. list ≡ self.now) }
    {
        let mut copies = Names::new(alloc);
        for item in self.as_slice() {
            copies.push(item.copy(alloc)?)?;
        }
        Ok(copies)
    }

    /// Adds a text at the end; after the refusal the list is as before.
    pub fn push(&mut self, item: Text) -> Result<(), NoMemory>
        ensures ok { OnOk result (self.new ≡ self.old ++ item ∷ []) }
        ensures err { OnErr result (self.new ≡ self.old) }
    {
        self.items.push(item)?;
        Ok(())
    }
}
