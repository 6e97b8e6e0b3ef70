//! What holds of bytes.
ghost use Rattle.list_laws.specs.Bytes.{AreBytes};

/// A law: the bytes of a slice are below 256.
pub fn are_bytes(bytes: &[u8])
    ensures { AreBytes bytes.now }
{
    let _len = bytes.len();
}
