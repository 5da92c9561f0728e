//! A few bytes of text in their place.

ghost use Rattle.std.specs.Prelude.{◌≡◌, ◌≤◌, length, IsUtf8};

use std::marker::Model;

/// How many bytes stand in their place at the most: with their number and its kind a text then takes 16 bytes.
pub const SHORT: usize = 14;

/// So many bytes of text, from the first on.
#[derive(Debug, Drop)]
pub struct Short {
    len: u8,
    bytes: [u8; 14],
}

impl Model for Short {
    ghost use Rattle.std.specs.Prelude.{List, ℕ, ◌≤◌, take, IsUtf8};
    ghost use Rattle.std.specs.Coded.{coded_list, coded_ℕ};

    ghost Value = { List ℕ };

    ghost coded = { coded_list coded_ℕ };

    ghost view = { λ s. take s.len s.bytes };

    ghost invariant = { λ s. (s.len ≤ 14) × IsUtf8 (take s.len s.bytes) };
}

impl Short {
    pub fn new(text: &str) -> Short
        requires { length text.now ≤ 14 }
        ensures { result ≡ text.now }
    {
        let from = text.as_bytes();
        let mut bytes = [0; 14];
        bytes[..from.len()].copy_from_slice(from);
        Short {
            len: from.len() as u8,
            bytes,
        }
    }

    #[inline]
    pub fn as_bytes(&self) -> &[u8]
        ensures { result.now ≡ self.now }
    {
        &self.bytes[..self.len as usize]
    }

    pub fn as_str(&self) -> &str
        ensures { result.now ≡ self.now }
    {
        self.is_utf8();
        std::str::from_utf8(self.as_bytes()).unwrap()
    }

    /// They are UTF-8. It does nothing.
    pub fn is_utf8(&self)
        ensures { IsUtf8 self.now }
    {
        let _ = &self.len;
    }

    pub fn copy(&self) -> Short
        ensures { result ≡ self.now }
    {
        Short {
            len: self.len,
            bytes: self.bytes,
        }
    }
}
