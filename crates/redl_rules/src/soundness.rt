//! The least rule that a package breaks.

ghost use Rattle.std.specs.Prelude.{◌≡◌, []};
ghost use Rattle.redl_tree.specs.Decisions.Packages.{stories};
ghost use Rattle.redl_rules.specs.Attributes.{broken_rule as broken_rule_of};
ghost use Rattle.redl_rules.specs.Answers.{answer_of};
ghost use Rattle.redl_tree.specs.Model.View.{tag_of, kids_of};
ghost use Rattle.redl_rules.specs.Keeping.{element_kept, kept_among};

use crate::keeper::Keeper;
use crate::kept::Kept;
use redl_opc::Package;
use redl_tree::Elem;
use redl_visit::{Ancestors, visit_kids};
use std::alloc::Global;
use std::convert::Infallible;
use thiserror::Error;

/// Why a package can't be decided.
#[derive(Clone, Copy, Debug, PartialEq, Eq, Error)]
pub enum RuleError {
    /// A rule is broken, and this is the least number of one.
    #[error("the package breaks rule {0}")]
    Broken(u8),
    /// An allocation failed; nothing is known of the package.
    #[error("out of memory")]
    NoMemory,
}

/// Checks that all stories of a package keep the rules.
///
/// `Broken` exactly where they don't, with the least number from 1 to 9 of a rule that is broken. It goes once through the
/// package, and one level deeper for each level of elements. It takes no memory, and so never answers `NoMemory`: that is in its
/// type because it is in the type of each call on a package, so that a caller treats them alike.
pub fn check(_alloc: Global, pkg: &Package) -> Result<(), RuleError>
    ensures { result ≡ answer_of (broken_rule_of pkg.now) }
{
    match broken_rule(pkg) {
        Some(rule) => Err(RuleError::Broken(rule)),
        None => Ok(()),
    }
}

fn broken_rule(pkg: &Package) -> Option<u8>
    ensures { result ≡ broken_rule_of pkg.now }
{
    kept_by_stories(pkg).least_broken()
}

// Which rules hold in all stories.
fn kept_by_stories(pkg: &Package) -> Kept
    ensures { result ≡ kept_among (stories pkg.now) }
{
    let mut kept = Kept::all();
    for part in 0..pkg.parts() {
        if let Some(root) = pkg.story(part) {
            kept = kept.and(kept_by_story(root));
        }
    }
    kept
}

// Which rules hold in the story with this root.
fn kept_by_story(root: &Elem) -> Kept
    ensures { result ≡ element_kept [] (tag_of root.now) (kids_of root.now) }
{
    let inner = Ancestors::none().inside(root);
    let (mut keeper, round) = Keeper::<Infallible>::at_root(root);
    match visit_kids(root, &inner, &round, &mut keeper) {
        Ok(()) => keeper.kept,
        Err(never) => match never {},
    }
}
