//! Names of servers, tables, columns, sets and users.

ghost use Rattle.std.specs.Prelude.{◌≡◌, IfOk, IsTrue};
ghost use Rattle.repl_types.specs.Name.{is_name, is_name as is_name_lem};
ghost use Rattle.repl_types.specs.Name.{is_name_byte as is_name_byte_lem, name_of};

use crate::sizes::NAME_LIMIT;
use crate::text::Text;
use std::alloc::{AllocError, Global};
use std::marker::Model;
use std::str;
use thiserror::Error;

/// Why a text gave no name.
#[derive(Clone, Copy, Debug, PartialEq, Eq, Error)]
pub enum NameError {
    #[error("out of memory")]
    Memory,
    #[error("not a name")]
    Spelling,
}

/// A name: 1 to 32 of the characters `a` to `z`, `0` to `9` and `_`, the first a letter. A clause
/// sees its bytes.
#[derive(Clone, Debug, Drop, PartialEq, Eq, PartialOrd, Ord)]
pub struct Name {
    text: Text,
}

impl Model for Name {
    ghost use Rattle.std.specs.Prelude.{List, ℕ, IsTrue};
    ghost use Rattle.repl_types.specs.Name.{is_name};

    ghost Value = { List ℕ };

    ghost view = { λ n. n.text };

    ghost invariant = { λ n. IsTrue (is_name n.text) };

    ghost inverse = { λ bytes. record { text = bytes } };
}

impl Name {
    /// The name that a text is. `Spelling` is returned only if it isn't a name, and `Memory` only
    /// if it is one and there is no memory for a copy.
    pub fn new(alloc: Global, text: &str) -> Result<Name, NameError>
        ensures ok { IfOk result (λ name. IsTrue (is_name text.now) × (name ≡ text.now)) }
        ensures spelling { result ≡ Err NameError.Spelling → ¬ (IsTrue (is_name text.now)) }
        ensures memory { result ≡ Err NameError.Memory → IsTrue (is_name text.now) }
    {
        if !is_name(text.as_bytes()) {
            return Err(NameError::Spelling);
        }
        Ok(Name {
            text: Text::new(String::from_str(alloc, text)?),
        })
    }

    /// The name that these bytes are, if they are one.
    pub fn read(alloc: Global, bytes: &[u8]) -> Result<Option<Name>, AllocError>
        ensures { IfOk result (λ name. name ≡ name_of bytes.now) }
    {
        if !is_name(bytes) {
            return Ok(None);
        }
        let Ok(text) = str::from_utf8(bytes) else {
            return Ok(None);
        };
        Ok(Some(Name {
            text: Text::new(String::from_str(alloc, text)?),
        }))
    }

    /// The name as a string.
    pub fn as_str(&self) -> &str
        ensures text { result.now ≡ self.now }
        ensures name { IsTrue (is_name self.now) }
    {
        self.text.as_str()
    }
}

/// Whether a byte may stand in a name.
fn is_name_byte(byte: u8) -> bool
    ensures { result ≡ is_name_byte_lem byte }
{
    matches!(byte, b'a'..=b'z' | b'0'..=b'9' | b'_')
}

/// Whether bytes are a name.
pub fn is_name(bytes: &[u8]) -> bool
    ensures { result ≡ is_name_lem bytes.now }
{
    match bytes {
        [b'a'..=b'z', rest @ ..] => bytes.len() <= NAME_LIMIT
            && rest.iter().all(|byte| is_name_byte(*byte)),
        _ => false,
    }
}

impl From<AllocError> for NameError {
    ghost use Rattle.std.specs.Prelude.{◌≡◌};
    ghost use Rattle.repl_types.specs.declared.name.NameError.TheVariants.{Memory};

    ghost from_gives = { λ _ e. e ≡ Memory };

    fn from(_: AllocError) -> NameError {
        NameError::Memory
    }
}
