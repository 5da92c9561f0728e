//! The names of a catalogue's files.

ghost use Rattle.std.specs.Prelude.{◌≡◌, ◌<◌, ◌^◌};
ghost use Rattle.catalog_root.specs.Root.{body_file, gate_file};

/// The one byte of an open gate.
pub const OPEN: u8 = 86;

pub fn body_of(version: u64) -> u64
    requires { version < 2 ^ 62 }
    ensures { result ≡ body_file version }
{
    4 * version + 1
}

pub fn gate_of(version: u64) -> u64
    requires { version < 2 ^ 62 }
    ensures { result ≡ gate_file version }
{
    4 * version + 2
}
