//! Names of objects and of keys.
ghost use Rattle.std.specs.Prelude.{◌≡◌, ◌≤◌, ℕ, List, true, length, IfOk};
ghost use Rattle.std.specs.List.{list_all};
ghost use Rattle.sync_types.specs.Name.{is_letter, is_name_byte, is_name};

use std::alloc::{AllocError, Global};
use std::marker::Model;

/// The most bytes that a name has.
pub const MAX_NAME: usize = 32;

/// The bytes of an object's name or of a key, in the form of a name.
#[derive(Debug, Drop)]
pub struct Name {
    bytes: Vec<u8>,
}

impl Model for Name {
    ghost use Rattle.std.specs.Prelude.{◌≡◌, ℕ, List, true};
    ghost use Rattle.sync_types.specs.Name.{is_name};

    ghost Value = { List ℕ };

    ghost view = { λ n. n.bytes.items };

    ghost invariant = { λ n. is_name n.bytes.items ≡ true };
}

impl Name {
    /// The name with these bytes.
    pub fn from_bytes(alloc: Global, bytes: &[u8]) -> Result<Self, AllocError>
        requires { is_name bytes.now ≡ true }
        ensures { IfOk result (λ name. name ≡ bytes.now) }
    {
        Ok(Name {
            bytes: Vec::from_slice(alloc, bytes)?,
        })
    }

    /// The bytes of the name.
    pub fn as_bytes(&self) -> &[u8]
        ensures bytes { result.now ≡ self.now }
        ensures is_name { is_name self.now ≡ true }
        ensures short { length self.now ≤ MAX_NAME }
    {
        &self.bytes
    }
}

fn letter(byte: u8) -> bool
    ensures { result ≡ is_letter byte }
{
    b'a' <= byte && byte <= b'z'
}

fn name_byte(byte: u8) -> bool
    ensures { result ≡ is_name_byte byte }
{
    letter(byte) || (b'0' <= byte && byte <= b'9') || byte == b'_'
}

fn all_name_bytes(bytes: &[u8]) -> bool
    ensures { result ≡ list_all is_name_byte bytes.now }
{
    bytes.iter().all(|byte| name_byte(*byte))
}

/// Whether the bytes have the form of a name: 1 to 32 bytes of `a` to `z`, `0` to `9` and `_`, a letter first.
pub fn is_name(bytes: &[u8]) -> bool
    ensures { result ≡ is_name bytes.now }
{
    match bytes.split_first() {
        None => false,
        Some((first, rest)) => { bytes.len() <= MAX_NAME && letter(*first) && all_name_bytes(rest) }
    }
}
