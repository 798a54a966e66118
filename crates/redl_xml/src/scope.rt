//! The namespace declarations in scope.

ghost use Rattle.std.specs.Prelude.{◌≡◌, [], ◌∷◌, length, drop, OnOk};
ghost use Rattle.redl_xml.specs.Scopes.{Scope, nearest};
ghost use Rattle.redl_xml.specs.Stacks.{scope_view, Agrees};

use redl_tree::Space;
use std::alloc::{AllocError, Global};
use std::collections::BTreeMap;
use std::marker::Model;

/// A declaration in a start tag.
#[derive(Clone, Copy)]
pub(crate) struct Declaration<'a> {
    /// The prefix.
    pub(crate) prefix: &'a [u8],
    /// The space of its namespace.
    pub(crate) space: Space,
    /// The space that the prefix had before.
    pub(crate) former: Option<Space>,
}

/// The declarations in scope, the nearest last, and for each prefix the space of its nearest declaration.
#[derive(Drop)]
pub(crate) struct Scopes<'a> {
    declarations: Vec<Declaration<'a>>,
    spaces: BTreeMap<&'a [u8], Option<Space>>,
}

impl<'a> Model for Scopes<'a> {
    ghost Value = { Scope };

    ghost view = { λ s. scope_view s.declarations.items };

    ghost invariant = { λ s. Agrees s.spaces s.declarations.items };
}

impl<'a> Scopes<'a> {
    pub(crate) fn new(alloc: Global) -> Scopes<'a>
        ensures { result ≡ [] }
    {
        Scopes {
            declarations: Vec::new(alloc),
            spaces: BTreeMap::new(alloc),
        }
    }

    /// The space of the nearest declaration of a prefix.
    pub(crate) fn space(&self, prefix: &'a [u8]) -> Option<Space>
        ensures { result ≡ nearest prefix.now self.now }
    {
        match self.spaces.get(prefix) {
            Some(space) => *space,
            None => None,
        }
    }

    /// Adds a declaration, which then is the nearest one.
    pub(crate) fn declare(&mut self, prefix: &'a [u8], space: Space) -> Result<(), AllocError>
        ensures { OnOk result (self.new ≡ (prefix.entry.now, space) ∷ self.old) }
    {
        let former = self.space(prefix);
        self.declarations.push(Declaration {
            prefix,
            space,
            former,
        })?;
        match self.spaces.insert(prefix, Some(space)) {
            Ok(_) => Ok(()),
            Err(_) => {
                self.declarations.pop();
                Err(AllocError)
            }
        }
    }

    /// The number of declarations.
    pub(crate) fn len(&self) -> usize
        ensures { result ≡ length self.now }
    {
        self.declarations.len()
    }

    /// Removes this many of the nearest declarations.
    pub(crate) fn forget(&mut self, count: usize)
        ensures { self.new ≡ drop count self.old }
    {
        let mut left = count;
        while left > 0 {
            self.forget_one();
            left -= 1;
        }
    }

    // Removes the nearest declaration.
    fn forget_one(&mut self)
        ensures { self.new ≡ drop 1 self.old }
    {
        if let Some(nearest) = self.declarations.pop() {
            if let Some(space) = self.spaces.get_mut(nearest.prefix) {
                *space = nearest.former;
            }
        }
    }
}
