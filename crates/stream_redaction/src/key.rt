//! What contents are replaced by.

ghost use Rattle.std.specs.Prelude.{◌≡◌, ◌++◌, OnOk, length};
ghost use Rattle.sha2.specs.Sha256.{sha256};
ghost use Rattle.stream_redaction.specs.Replacement.{letters, replacement, zeros};

use sha2::{Digest, Sha256};
use std::alloc::AllocError;

/// What characters depend on, besides the content that they replace. Who knows it can find a short content by trying.
#[derive(Clone, Copy)]
pub struct Key {
    /// The SHA-256 digest of the secret.
    digest: [u8; 32],
}

impl Key {
    /// The key of a secret of any length.
    pub fn new(secret: &[u8]) -> Key
        ensures { result.digest ≡ sha256 secret.now }
    {
        Key {
            digest: Sha256::digest(secret),
        }
    }

    /// Appends as many characters as a content has bytes. They depend only on the key and on the content.
    #[tactic(auto, unfolding(crate::specs::Replacement::replacement))]
    pub fn append_replacement(&self, content: &[u8], out: &mut Vec<u8>) -> Result<(), AllocError>
        ensures { OnOk result (out.new.items ≡ out.old.items ++ replacement self.now content.now) }
    {
        let digest = self.digest_of(content);
        append_letters(&digest, content.len(), out)
    }

    /// The digest of a content, after that of the secret.
    fn digest_of(&self, content: &[u8]) -> [u8; 32]
        ensures { result ≡ sha256 (self.now.digest ++ content.now) }
    {
        let mut hasher = Sha256::new();
        hasher.update(&self.digest);
        hasher.update(content);
        hasher.finalize()
    }
}

/// Appends this many characters, by the bytes of a digest in turn.
fn append_letters(digest: &[u8; 32], count: usize, out: &mut Vec<u8>) -> Result<(), AllocError>
    ensures { OnOk result (out.new.items ≡ out.old.items ++ letters digest.now count) }
{
    for place in 0..count {
        out.push(b'a' + digest[place % 32] % 26)?;
    }
    Ok(())
}

/// Appends this many zeros.
pub(crate) fn append_zeros(count: usize, out: &mut Vec<u8>) -> Result<(), AllocError>
    ensures { OnOk result (out.new.items ≡ out.old.items ++ zeros count) }
{
    for _ in 0..count {
        out.push(0)?;
    }
    Ok(())
}
