ghost use Rattle.std.specs.Prelude.{◌≡◌, ◌≤◌, length};

use std::marker::Model;

/// An object's key: 0 to 255 bytes.
#[derive(Debug, Drop)]
pub struct Key {
    bytes: Vec<u8>,
}

impl Model for Key {
    ghost use Rattle.std.specs.Prelude.{List, ℕ, length, ◌≤◌};

    ghost Value = { List ℕ };

    ghost view = { λ k. k.bytes.items };

    ghost invariant = { λ k. length k.bytes.items ≤ 255 };
}

impl Key {
    /// The key of these bytes, at most 255.
    pub fn new(bytes: Vec<u8>) -> Key
        requires { length bytes.items ≤ 255 }
        ensures { result ≡ bytes.items }
    {
        Key { bytes }
    }

    /// The key's bytes, at most 255.
    pub fn bytes(&self) -> &[u8]
        ensures value { result.now ≡ self.now }
        ensures short { length self.now ≤ 255 }
    {
        &self.bytes
    }
}
