//! A package as its journals know it.

ghost use Rattle.std.specs.Prelude.{◌≡◌};
ghost use Rattle.redl_inputs.specs.Views.{digest_in, document_view, known_view};

use sha2::{Digest, Sha256};

/// A package as its journals know it.
#[derive(Clone, Copy, Debug, PartialEq, Eq)]
pub struct DocumentId {
    /// The SHA-256 of the package's bytes.
    pub digest: [u8; 32],
    /// How many revisions it has.
    pub count: u32,
}

/// A package whose digest is taken when a journal asks for it, since that costs a pass over all its bytes.
#[derive(Drop)]
pub struct Document<'b> {
    /// The SHA-256 of the package's bytes.
    pub digest: LazyDigest<'b>,
    /// How many revisions it has.
    pub count: u32,
}

/// A SHA-256 that is taken when it is asked for.
#[derive(Drop)]
pub enum LazyDigest<'b> {
    /// That of these bytes, which nobody has asked for.
    Of(&'b [u8]),
    /// One that was taken.
    Taken([u8; 32]),
}

impl<'b> Document<'b> {
    /// The package as its journals know it. The first call takes the digest.
    pub fn id(&mut self) -> DocumentId
        ensures id { document_view result ≡ known_view self.old }
        ensures same { known_view self.new ≡ known_view self.old }
    {
        let digest = self.digest.take();
        DocumentId {
            digest,
            count: self.count,
        }
    }
}

impl<'b> LazyDigest<'b> {
    // The digest. The first call takes it.
    fn take(&mut self) -> [u8; 32]
        ensures value { result ≡ digest_in self.old }
        ensures same { digest_in self.new ≡ digest_in self.old }
    {
        let digest = self.value();
        *self = LazyDigest::Taken(digest);
        digest
    }

    fn value(&self) -> [u8; 32]
        ensures { result ≡ digest_in self.now }
    {
        match self {
            LazyDigest::Of(bytes) => Sha256::digest(bytes),
            LazyDigest::Taken(digest) => *digest,
        }
    }
}
