//! Where nodes stand, as far as hidden text asks for it.

ghost use Rattle.std.specs.Prelude.{◌≡◌};
ghost use Rattle.redl_tree.specs.Model.View.{kids_of, tag_of};
ghost use Rattle.redl_idle.specs.Ahead.{Begins};
ghost use Rattle.redl_said.specs.Said.{holds_text};
ghost use Rattle.redl_hidden_members.specs.Around.{in_other, in_paragraph, in_run, inside, start};
ghost use Rattle.redl_hidden_members.specs.Inside.Idle.{in_idle, inside_idle};

use redl_hidden::HiddenStyles;
use redl_tree::{Elem, Word, is_named, is_quiet, is_word};

/// Where nodes stand.
#[derive(Clone, Copy)]
pub(crate) struct Around {
    /// The nearest paragraph hides its runs, where they say nothing themselves.
    pub paragraph: bool,
    /// Its mark is hidden.
    pub mark: bool,
    /// They are properties of a mark that is hidden.
    pub in_mark: bool,
    /// They are kids of a run, or its properties.
    pub of_run: bool,
    /// They are in a hidden run.
    pub run: bool,
    /// No ancestor holds properties.
    pub loud: bool,
    /// Bytes among them are text.
    pub text: bool,
}

/// Where the kids of a story's root stand.
pub(crate) fn start() -> Around
    ensures { result ≡ start }
{
    Around {
        paragraph: false,
        mark: false,
        in_mark: false,
        of_run: false,
        run: false,
        loud: true,
        text: false,
    }
}

impl Around {
    /// Where the kids of an element stand.
    pub(crate) fn inside(self, styles: &HiddenStyles<'_>, elem: &Elem) -> Around
        ensures { result ≡ inside styles.now self (tag_of elem.now) (kids_of elem.now) }
    {
        if is_word(elem, Word::P) {
            return self.in_paragraph(styles, elem);
        }
        if is_word(elem, Word::R) {
            return self.in_run(styles.run_hides(self.paragraph, elem));
        }
        self.in_other(elem)
    }

    fn in_paragraph(self, styles: &HiddenStyles<'_>, elem: &Elem) -> Around
        ensures { result ≡ in_paragraph styles.now self (kids_of elem.now) }
    {
        let paragraph = styles.paragraph_hides(elem);
        Around {
            paragraph,
            mark: self.run || styles.mark_hides(paragraph, elem),
            in_mark: false,
            of_run: false,
            run: self.run,
            loud: self.loud,
            text: false,
        }
    }

    // In a run, which is hidden by itself or not.
    fn in_run(self, hidden: bool) -> Around
        ensures { result ≡ in_run self hidden }
    {
        Around {
            paragraph: self.paragraph,
            mark: self.mark,
            in_mark: false,
            of_run: true,
            run: self.run || hidden,
            loud: self.loud,
            text: false,
        }
    }

    fn in_other(self, elem: &Elem) -> Around
        ensures { result ≡ in_other self (tag_of elem.now) }
    {
        let properties = is_word(elem, Word::RPr);
        let in_mark = if is_word(elem, Word::PPr) {
            self.mark
        } else {
            properties && self.in_mark
        };
        Around {
            paragraph: self.paragraph,
            mark: self.mark,
            in_mark,
            of_run: properties && self.of_run,
            run: self.run,
            loud: self.loud && !is_quiet(elem),
            text: holds_text(elem),
        }
    }

    /// Where the kids of an idle element stand with this local name, where the text `ahead` begins with them.
    pub(crate) fn inside_idle(self, styles: &HiddenStyles<'_>, local: &[u8], ahead: &[u8]) -> Around
        requires { Begins ahead.now }
        ensures { (kids : Begins ahead.now) → result ≡ inside_idle styles.now self local.now kids.nodes }
    {
        if local == b"r".as_slice() {
            return self.in_run(styles.run_hides_ahead(self.paragraph, ahead));
        }
        self.in_idle(local)
    }

    fn in_idle(self, local: &[u8]) -> Around
        ensures { result ≡ in_idle self local.now }
    {
        let properties = local == b"rPr".as_slice();
        Around {
            paragraph: self.paragraph,
            mark: self.mark,
            in_mark: properties && self.in_mark,
            of_run: properties && self.of_run,
            run: self.run,
            loud: self.loud && !properties,
            text: local == b"t".as_slice(),
        }
    }
}

// Whether the bytes in an element are text.
fn holds_text(elem: &Elem) -> bool
    ensures { result ≡ holds_text (tag_of elem.now) }
{
    is_named(elem, b"t") || is_word(elem, Word::DelText)
}
