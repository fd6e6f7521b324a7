//! Numbers and bytes in texts that are hashed, and the digests of such texts.
ghost use Rattle.std.specs.Prelude.{◌≡◌, ◌++◌, OnOk};
ghost use Rattle.sha2.specs.Sha256.{sha256};
ghost use Rattle.go_export.specs.Fields.{be, field};

use sha2::{Digest, Sha256};
use std::alloc::AllocError;

/// Appends a number in 8 bytes, the most significant first. An `Err` only where memory ran out.
pub fn push_number(text: &mut Vec<u8>, number: u64) -> Result<(), AllocError>
    ensures { OnOk result (text.new.items ≡ text.old.items ++ be number) }
{
    text.extend_from_slice(&number.to_be_bytes())?;
    Ok(())
}

/// Appends how many bytes there are, and the bytes. An `Err` only where memory ran out.
pub fn push_field(text: &mut Vec<u8>, bytes: &[u8]) -> Result<(), AllocError>
    ensures { OnOk result (text.new.items ≡ text.old.items ++ field bytes.now) }
{
    push_number(text, bytes.len() as u64)?;
    text.extend_from_slice(bytes)?;
    Ok(())
}

/// The SHA-256 digest of some bytes.
pub fn digest(bytes: &[u8]) -> [u8; 32]
    ensures { result ≡ sha256 bytes.now }
{
    let mut hasher = Sha256::new();
    hasher.update(bytes);
    hasher.finalize()
}
