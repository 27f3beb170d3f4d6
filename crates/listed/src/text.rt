ghost use Rattle.std.specs.Prelude.{◌≡◌, [], ◌++◌, encode_utf8, IfOk, OnOk, OnErr};
ghost use Rattle.std.specs.Str.{str_to_ascii_lowercase};

use std::alloc::{AllocError, Global};
use std::marker::Model;

/// A text that contracts see as its UTF-8 bytes.
///
/// Where a growth gets no memory the text stays as it was.
#[derive(Debug, Drop)]
pub struct Text {
    inner: String,
}

impl Model for Text {
    ghost use Rattle.std.specs.Prelude.{List, ℕ, string_bytes};

    ghost Value = { List ℕ };

    ghost view = { λ text. string_bytes text.inner };
}

impl Text {
    /// The empty text. It takes no memory.
    pub fn new(alloc: Global) -> Text
        ensures { result ≡ [] }
    {
        Text {
            inner: String::new(alloc),
        }
    }

    /// A copy of a text.
    pub fn of(alloc: Global, text: &str) -> Result<Text, AllocError>
        ensures { IfOk result (λ copy. copy ≡ text.now) }
    {
        Ok(Text {
            inner: String::from_str(alloc, text)?,
        })
    }

    /// The text with its ASCII letters in lower case.
    pub fn lower(alloc: Global, text: &str) -> Result<Text, AllocError>
        ensures { IfOk result (λ lower. lower ≡ str_to_ascii_lowercase text.now) }
    {
        let inner = text.to_ascii_lowercase(alloc)?;
        Ok(Text { inner })
    }

    /// Adds a character at the end.
    pub fn push(&mut self, character: char) -> Result<(), AllocError>
        ensures ok { OnOk result (self.new ≡ self.old ++ encode_utf8 character) }
        ensures err { OnErr result (self.new ≡ self.old) }
    {
        self.inner.push(character)
    }

    /// Adds a text at the end.
    pub fn push_str(&mut self, more: &str) -> Result<(), AllocError>
        ensures ok { OnOk result (self.new ≡ self.old ++ more.now) }
        ensures err { OnErr result (self.new ≡ self.old) }
    {
        self.inner.push_str(more)
    }

    /// The text, lent.
    pub fn as_str(&self) -> &str
        ensures { result.now ≡ self.now }
    {
        self.inner.as_str()
    }

    /// An equal text.
    pub fn copy(&self, alloc: Global) -> Result<Text, AllocError>
        ensures { IfOk result (λ copy. copy ≡ self.now) }
    {
        Text::of(alloc, self.as_str())
    }
}
