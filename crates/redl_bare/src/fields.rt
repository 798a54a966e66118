//! Fields: what counts pages or tells the time, and which results are left out.

ghost use Rattle.std.specs.Prelude.{◌≡◌, map};
ghost use Rattle.redl_reading.specs.Lists.{after};
ghost use Rattle.redl_bare.specs.Fields.{is_blank, is_in_name, field_name, is_name, counts_pages, tells_time, is_counted, no_field, at_begin, at_separate, at_end, after_text, is_shown};
ghost use Rattle.redl_bare.specs.Units.{byte, object};
ghost use Rattle.redl_bare.specs.Inside.Texts.{after_texts, is_silent};
ghost use Rattle.redl_bare.specs.Inside.Views.{fields_view};

use crate::object::Object;
use arrayvec::ArrayVec;
use redl_reading::run;

// How much of a code is looked at.
const CODE: usize = 64;

// How many fields are counted in a result that is left out, as many as elements may be nested.
const DEPTH: usize = 512;

/// The fields that are open.
#[derive(Drop)]
pub(crate) struct Fields {
    /// Whether texts are the code of a field.
    pub in_code: bool,
    /// The first bytes of that code.
    pub code: ArrayVec<u8, CODE>,
    /// How many are open from one on whose result is left out.
    pub silent: usize,
}

impl Fields {
    /// None is open.
    pub(crate) fn none() -> Fields
        ensures { fields_view result ≡ no_field }
    {
        Fields {
            in_code: false,
            code: ArrayVec::new(),
            silent: 0,
        }
    }

    /// Whether characters are left out.
    pub(crate) fn are_silent(&self) -> bool
        ensures { result ≡ is_silent (fields_view self.now) }
    {
        self.silent != 0
    }

    /// Goes past characters.
    pub(crate) fn read(&mut self, bytes: &[u8])
        ensures { fields_view self.new ≡ after_texts (fields_view self.old) (map byte bytes.now) }
    {
        for at in 0..bytes.len() {
            self.read_byte(bytes[at]);
        }
    }

    fn read_byte(&mut self, b: u8)
        ensures { fields_view self.new ≡ after_text (fields_view self.old) (byte b) }
    {
        if self.in_code && !self.code.is_full() {
            self.code.push(b);
        }
    }

    /// Goes past an object, and says whether it is shown.
    pub(crate) fn pass(&mut self, what: Object) -> bool
        ensures shown { result ≡ is_shown (fields_view self.old) (object what) }
        ensures after { fields_view self.new ≡ after_text (fields_view self.old) (object what) }
    {
        let was_shown = self.silent == 0;
        self.pass_part(what);
        was_shown || self.silent == 0
    }

    fn pass_part(&mut self, what: Object)
        ensures { fields_view self.new ≡ after_text (fields_view self.old) (object what) }
    {
        match what {
            Object::FieldBegin => self.begin(),
            Object::FieldSeparate => self.separate(),
            Object::FieldEnd => self.end(),
            Object::Picture
            | Object::FootnoteReference
            | Object::EndnoteReference
            | Object::Symbol
            | Object::PlaceTab
            | Object::SoftHyphen => {}
        }
    }

    fn begin(&mut self)
        ensures { fields_view self.new ≡ at_begin (fields_view self.old) }
    {
        if self.silent == 0 {
            self.in_code = true;
            self.code.clear();
        } else if self.silent < DEPTH {
            self.silent += 1;
        }
    }

    fn separate(&mut self)
        ensures { fields_view self.new ≡ at_separate (fields_view self.old) }
    {
        if self.in_code && is_counted(self.code.as_slice()) {
            self.silent = 1;
        }
        self.in_code = false;
    }

    fn end(&mut self)
        ensures { fields_view self.new ≡ at_end (fields_view self.old) }
    {
        self.in_code = false;
        self.silent = self.silent.saturating_sub(1);
    }
}

// Whether the result of the field with this code is counted anew by whoever stores the document.
fn is_counted(code: &[u8]) -> bool
    ensures { result ≡ is_counted code.now }
{
    let word = field_name(code);
    counts_pages(word) || tells_time(word)
}

// The first word of a code, before its switches.
fn field_name(code: &[u8]) -> &[u8]
    ensures { result.now ≡ field_name code.now }
{
    let (name, _) = run(past_blanks(code), is_in_name);
    name
}

fn past_blanks(code: &[u8]) -> &[u8]
    ensures { result.now ≡ after is_blank code.now }
{
    let (_, rest) = run(code, is_blank);
    rest
}

fn is_blank(byte: u8) -> bool
    ensures { result ≡ is_blank byte }
{
    matches!(byte, b' ' | b'\t' | b'\n' | b'\r')
}

fn is_in_name(byte: u8) -> bool
    ensures { result ≡ is_in_name byte }
{
    !matches!(byte, b' ' | b'\t' | b'\n' | b'\r' | b'\\')
}

fn counts_pages(word: &[u8]) -> bool
    ensures { result ≡ counts_pages word.now }
{
    is_name(word, b"PAGE") || is_name(word, b"NUMPAGES") || is_name(word, b"SECTIONPAGES")
}

fn tells_time(word: &[u8]) -> bool
    ensures { result ≡ tells_time word.now }
{
    is_name(word, b"DATE")
        || is_name(word, b"TIME")
        || is_name(word, b"SAVEDATE")
        || is_name(word, b"PRINTDATE")
        || is_name(word, b"CREATEDATE")
        || is_name(word, b"EDITTIME")
}

fn is_name(word: &[u8], name: &[u8]) -> bool
    ensures { result ≡ is_name word.now name.now }
{
    word.eq_ignore_ascii_case(name)
}
