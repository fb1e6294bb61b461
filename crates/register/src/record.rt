//! What a register holds.
ghost use Rattle.std.specs.Prelude.{◌≡◌};

use crate::key::Key;

/// A record with a key.
pub trait Record: Copy {
    type Key: Key;

    ghost key_of: { Self → Self.Key };

    fn key(&self) -> Self::Key
        ensures { result ≡ key_of self.now };
}
