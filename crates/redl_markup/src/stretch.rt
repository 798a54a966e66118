//! Stretches without a tag.

ghost use Rattle.std.specs.Prelude.{◌≡◌, length, codes, Some, IfSome};
ghost use Rattle.std.specs.List.{list_all};
ghost use Rattle.redl_grammar.specs.Characters.{is_space};
ghost use Rattle.redl_reading.specs.Lists.{lacks};
ghost use Rattle.redl_reading.specs.Steps.{Gives};
ghost use Rattle.redl_grammar.specs.Stretches.{is_run, ends_stretch};
ghost use Rattle.redl_grammar.specs.ScanStretches.{items_end, stretch_at};
ghost use Rattle.redl_grammar.specs.Pieces.{stretch as a_stretch};
ghost use Rattle.redl_grammar.specs.declared.section.Section.TheVariants.{InElement};

use crate::declaration::after_head;
use crate::item::{begins_item, item};
use crate::near::near_until_any;
use crate::reference::are_references;
use crate::space::is_space;
use redl_grammar::Section;
use redl_reading::{before, far_until};

#[tactic(auto, using(redl_reading::proofs::Words::lacks_after, redl_reading::proofs::Runs::after_fits))]
fn has_no_close(bytes: &[u8]) -> bool
    ensures { result ≡ lacks (codes "]]>") bytes.now }
{
    let (_, mut rest) = far_until(bytes, b']');
    while let Some((_, next)) = rest.split_first() {
        if rest.starts_with(b"]]>") {
            return false;
        }
        rest = far_until(next, b']').1;
    }
    true
}

fn is_all_space(bytes: &[u8]) -> bool
    ensures { result ≡ list_all is_space bytes.now }
{
    bytes.iter().all(|b| is_space(*b))
}

fn is_run(bytes: &[u8], place: Section) -> bool
    ensures { result ≡ is_run place bytes.now }
{
    match place {
        Section::InElement => are_references(bytes) && has_no_close(bytes),
        Section::BeforeRoot | Section::AfterRoot => is_all_space(bytes),
    }
}

// The bytes after runs and items.
fn end_of_items(bytes: &[u8], place: Section) -> Option<&[u8]>
    ensures { Gives (λ rest. rest.now) result (items_end place bytes.now) }
{
    let mut rest = bytes;
    loop {
        let (run, next) = far_until(rest, b'<');
        if !is_run(run, place) {
            return None;
        }
        if !begins_item(next) {
            return Some(next);
        }
        rest = item(next, place)?;
    }
}

// A stretch in an element that is text without references and `]`.
fn plain_stretch(bytes: &[u8]) -> Option<(&[u8], &[u8])>
    ensures { IfSome result (λ x. stretch_at InElement bytes.now ≡ Some (a_stretch x.0.now, x.1.now)) }
{
    let (text, rest) = near_until_any(bytes, b'<', b'&', b']');
    if text.is_empty() || !ends_stretch(rest) {
        return None;
    }
    Some((text, rest))
}

// Whether a stretch may end before these bytes: they are empty, or begin with a tag.
fn ends_stretch(bytes: &[u8]) -> bool
    ensures { result ≡ ends_stretch bytes.now }
{
    match bytes {
        [] => true,
        [first, ..] => *first == b'<' && !begins_item(bytes),
    }
}

/// The longest stretch without a tag, and the bytes after it.
#[tactic(auto, unfolding(redl_grammar::specs::ScanStretches::stretch_at))]
pub(crate) fn stretch(bytes: &[u8], place: Section) -> Option<(&[u8], &[u8])>
    ensures { Gives (λ x. (a_stretch x.0.now, x.1.now)) result (stretch_at place bytes.now) }
{
    if let Section::InElement = place {
        // Most stretches in elements are plain text.
        if let Some((text, rest)) = plain_stretch(bytes) {
            return Some((text, rest));
        }
    }
    let rest = end_of_items(after_head(bytes, place), place)?;
    let stretch = before(bytes, rest);
    if stretch.is_empty() {
        return None;
    }
    Some((stretch, rest))
}
