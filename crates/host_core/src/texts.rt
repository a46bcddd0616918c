//! A text that owns its bytes.
ghost use Rattle.std.specs.Prelude.{◌≡◌, ◌++◌, ◌∷◌, [], IfOk, OnOk, OnErr, IsUtf8, string_bytes};

use crate::{Memory, Sequence};
use std::alloc::Global;
use std::marker::Model;

/// A text. Contracts see it as the list of its bytes, which are valid UTF-8.
#[derive(Debug, Drop)]
pub struct Txt {
    text: String,
}

/// A list of texts.
pub type Names = Sequence<Txt>;

/// Adds a copy of a text.
pub(crate) fn add_copy(names: &mut Names, alloc: Global, text: &str) -> Result<(), Memory>
    ensures ok { OnOk result (names.new ≡ names.old ++ text.now ∷ []) }
    ensures err { OnErr result (names.new ≡ names.old) }
{
    let text = Txt::new(alloc, text)?;
    names.push(text)
}

impl Model for Txt {
    ghost use Rattle.std.specs.Prelude.{List, ℕ, string_bytes};

    ghost Value = { List ℕ };

    ghost view = { λ t. string_bytes t.text };
}

impl Txt {
    /// A copy of a text.
    pub fn new(alloc: Global, text: &str) -> Result<Txt, Memory>
        ensures { IfOk result (λ t. t ≡ text.now) }
    {
        Ok(Txt {
            text: String::from_str(alloc, text)?,
        })
    }

    /// A copy of this text.
    pub fn copy(&self, alloc: Global) -> Result<Txt, Memory>
        ensures { IfOk result (λ t. t ≡ self.now) }
    {
        Txt::new(alloc, self.as_str())
    }

    /// The text as a string, with no copy.
    pub fn into_string(self) -> String
        ensures { string_bytes result ≡ self }
    {
        let Txt { text } = self;
        text
    }

    /// The text itself.
    pub fn as_str(&self) -> &str
        ensures text { result.now ≡ self.now }
        ensures utf8 { IsUtf8 self.now }
    {
        let text = self.text.as_str();
        let _ = text.as_bytes();
        text
    }
}

impl From<String> for Txt {
    ghost use Rattle.std.specs.Prelude.{◌≡◌, string_bytes};

    ghost from_gives = { λ s t. t ≡ string_bytes s };

    /// The same text, with no copy.
    fn from(text: String) -> Txt {
        Txt { text }
    }
}
