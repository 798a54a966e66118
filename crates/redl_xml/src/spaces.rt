//! The namespaces in scope, with the one that was last asked for.

ghost use Rattle.std.specs.Prelude.{◌≡◌, [], ◌∷◌, length, drop, OnOk};
ghost use Rattle.redl_xml.specs.Scopes.{Scope, nearest};

use crate::scope::Scopes;
use redl_tree::Space;
use std::alloc::{AllocError, Global};
use std::marker::Model;

/// The declarations in scope, and a prefix with its space. Most elements have the prefix of the one before.
#[derive(Drop)]
pub(crate) struct Spaces<'a> {
    scopes: Scopes<'a>,
    prefix: &'a [u8],
    space: Option<Space>,
}

impl<'a> Model for Spaces<'a> {
    ghost use Rattle.std.specs.Prelude.{◌≡◌};
    ghost use Rattle.redl_xml.specs.Scopes.{Scope, nearest};

    ghost Value = { Scope };

    ghost view = { λ s. s.scopes };

    ghost invariant = { λ s. s.space ≡ nearest s.prefix.now s.scopes };
}

impl<'a> Spaces<'a> {
    pub(crate) fn new(alloc: Global) -> Spaces<'a>
        ensures { result ≡ [] }
    {
        Spaces {
            scopes: Scopes::new(alloc),
            prefix: b"",
            space: None,
        }
    }

    /// The space of the nearest declaration of a prefix.
    pub(crate) fn space(&self, prefix: &'a [u8]) -> Option<Space>
        ensures { result ≡ nearest prefix.now self.now }
    {
        self.scopes.space(prefix)
    }

    /// The same, which is at hand where the prefix is the last one.
    #[inline(always)]
    pub(crate) fn recall(&mut self, prefix: &'a [u8]) -> Option<Space>
        ensures value { result ≡ nearest prefix.entry.now self.old }
        ensures same { self.new ≡ self.old }
    {
        if prefix != self.prefix {
            self.space = self.scopes.space(prefix);
            self.prefix = prefix;
        }
        self.space
    }

    /// Adds a declaration, which then is the nearest one.
    pub(crate) fn declare(&mut self, prefix: &'a [u8], space: Space) -> Result<(), AllocError>
        ensures { OnOk result (self.new ≡ (prefix.entry.now, space) ∷ self.old) }
    {
        let declared = self.scopes.declare(prefix, space);
        self.space = self.scopes.space(self.prefix);
        declared
    }

    /// The number of declarations.
    pub(crate) fn len(&self) -> usize
        ensures { result ≡ length self.now }
    {
        self.scopes.len()
    }

    /// Removes this many of the nearest declarations.
    #[inline(always)]
    pub(crate) fn forget(&mut self, count: usize)
        ensures { self.new ≡ drop count self.old }
    {
        if count > 0 {
            self.scopes.forget(count);
            self.space = self.scopes.space(self.prefix);
        }
    }
}
