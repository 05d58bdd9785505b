//! A file in memory.
ghost use Rattle.std.specs.Prelude.{◌≡◌, string_bytes};
ghost use Rattle.std.specs.Str.{bytes_eq};
ghost use Rattle.sync_outside.specs.Memory.{File};

use std::marker::Model;

/// A name and the bytes under it.
#[derive(Drop)]
pub struct MemFile {
    name: String,
    bytes: Vec<u8>,
}

impl Model for MemFile {
    ghost Value = { File };

    ghost view = { λ f. record { name = string_bytes f.name; bytes = f.bytes.items } };
}

impl MemFile {
    /// These bytes under this name.
    pub fn new(name: String, bytes: Vec<u8>) -> Self
        ensures { result ≡ record { name = string_bytes name; bytes = bytes.items } }
    {
        MemFile { name, bytes }
    }

    /// Whether the file has this name.
    pub fn is_named(&self, name: &str) -> bool
        ensures { result ≡ bytes_eq self.now.name name.now }
    {
        self.name.as_bytes() == name.as_bytes()
    }

    /// The bytes.
    pub fn as_bytes(&self) -> &[u8]
        ensures { result.now ≡ self.now.bytes }
    {
        &self.bytes
    }
}
