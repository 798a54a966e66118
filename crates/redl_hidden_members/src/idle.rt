//! Hidden units among idle elements that a list keeps as text.

ghost use Rattle.std.specs.Prelude.{◌≡◌, [], OnOk, if◌then◌else◌};
ghost use Rattle.redl_shown.specs.Shown.{shown};
ghost use Rattle.redl_idle.specs.Shows.{shows};
ghost use Rattle.redl_tree.specs.Model.IdleTexts.{idle_nodes};
ghost use Rattle.redl_tree.specs.Model.View.{kids_of, tag_of};
ghost use Rattle.redl_tree.specs.Roles.Names.{of_w};
ghost use Rattle.redl_hidden_members.specs.Around.{inside};
ghost use Rattle.redl_hidden_members.specs.Inside.Heards.{heard};
ghost use Rattle.redl_hidden_members.specs.Inside.Idle.{sign_if, unit_rule};
ghost use Rattle.redl_hidden_members.specs.Walks.{is_hidden_text, unit_is_hidden};

use crate::around::Around;
use crate::heard::Heard;
use crate::unit::{is_unit, is_unit_name};
use redl_hidden::HiddenStyles;
use redl_idle::{Shows, show};
use redl_said::{Ear, tell_bytes};
use redl_tree::{Elem, Plain};
use std::alloc::AllocError;

/// Where nodes stand, and the styles of their package.
#[derive(Clone, Copy)]
pub(crate) struct Within<'s, 'a> {
    pub(crate) styles: &'s HiddenStyles<'a>,
    pub(crate) at: Around,
}

impl<'s, 'a> Within<'s, 'a> {
    /// Where the kids of an element stand.
    pub(crate) fn inside(self, elem: &Elem) -> Within<'s, 'a>
        ensures styles { result.styles.now ≡ self.entry.styles.now }
        ensures at { result.at ≡ inside self.entry.styles.now self.entry.at (tag_of elem.now) (kids_of elem.now) }
    {
        Within {
            styles: self.styles,
            at: self.at.inside(self.styles, elem),
        }
    }

    /// Whether an element is a unit that is hidden.
    pub(crate) fn hides(self, elem: &Elem) -> bool
        ensures { result ≡ unit_is_hidden self.entry.at (tag_of elem.now) }
    {
        self.at.run && self.at.loud && is_unit(elem)
    }

    // The same of an idle element with this local name.
    fn hides_idle(&self, local: &[u8]) -> bool
        ensures { result ≡ unit_is_hidden self.now.at (of_w local.now) }
    {
        self.at.run && self.at.loud && is_unit_name(local)
    }

    // Whether bytes are text that is hidden.
    fn hides_text(&self) -> bool
        ensures { result ≡ is_hidden_text self.now.at }
    {
        self.at.run && self.at.loud && self.at.text
    }

    /// Notes whether bytes show anything that is hidden. `Err` means out of memory, here and below.
    pub(crate) fn note_bytes(&self, bytes: &[u8], ear: &mut Heard) -> Result<(), AllocError>
        ensures { OnOk result (ear.new ≡ heard ear.old (if is_hidden_text self.now.at then shown bytes.now else [])) }
    {
        tell_bytes(bytes, self.hides_text(), ear)
    }
}

/// Notes whether there is a hidden unit among idle elements.
pub(crate) fn note_idle(
    within: Within<'_, '_>,
    plain: &Plain<'_>,
    ear: &mut Heard,
) -> Result<(), AllocError>
    ensures { OnOk result (ear.new ≡ heard ear.old (shows unit_rule within.entry (idle_nodes plain.now))) }
{
    show(plain, &within, ear)
}

fn note_sign(hidden: bool, ear: &mut Heard) -> Result<(), AllocError>
    ensures { OnOk result (ear.new ≡ heard ear.old (sign_if hidden)) }
{
    if hidden {
        return ear.hear(b" ");
    }
    Ok(())
}

impl Shows<Heard> for Within<'_, '_> {
    ghost use Rattle.redl_idle.specs.Takings.{by_state};
    ghost use Rattle.redl_hidden_members.specs.Inside.Heards.{heard, heard-nothing, heard-more};
    ghost use Rattle.redl_hidden_members.specs.Inside.Idle.{unit_rule};

    type Error = AllocError;

    ghost rule = { unit_rule };

    ghost taking = { by_state heard heard-nothing heard-more };

    fn put_bytes(&self, bytes: &[u8], ear: &mut Heard) -> Result<(), AllocError> {
        self.note_bytes(bytes, ear)
    }

    fn enter(
        &self,
        local: &[u8],
        _tail: &[u8],
        ahead: &[u8],
        ear: &mut Heard,
    ) -> Result<Self, AllocError> {
        note_sign(self.hides_idle(local), ear)?;
        Ok(Within {
            styles: self.styles,
            at: self.at.inside_idle(self.styles, local, ahead),
        })
    }

    fn leave(&self, _ear: &mut Heard) -> Result<(), AllocError> {
        Ok(())
    }
}
