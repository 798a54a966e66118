//! Start tags, as they stand in the input.

ghost use Rattle.std.specs.Prelude.{◌≡◌, ◌++◌, ◌&&◌, bytes_eq, codes, take, drop, IfSome};
ghost use Rattle.redl_tree.specs.Model.Cuts.{IsCut, is_live as is_live_number};
ghost use Rattle.redl_tree.specs.Model.Starts.{start_in, local_in};
ghost use Rattle.redl_tree.specs.Model.Text.{prefix_text, name_text};
ghost use Rattle.redl_tree.specs.Roles.Names.{is_w};
ghost use Rattle.redl_tree.specs.Roles.Words.{name_of};

use crate::kinds::{Kind, Space};
use crate::word::{Word, number_in};
use std::marker::Model;

// The number of a tag whose local name is `t`, and of one whose name is `instrText`, since its deleted text is live again.
const TEXT: u8 = 254;

const INSTRUCTION: u8 = 255;

/// The start tag of an element, with the element's namespace, its kind and the number of its revision.
///
/// It borrows its text from the input. Revisions are numbered from 1, and the number is 0 for an element that belongs to
/// none.
#[derive(Drop)]
pub struct Tag<'a> {
    // All between `<` and `>` or `/>`.
    text: &'a [u8],
    // How many bytes the prefix has, and how many the name has, with its prefix and colon.
    prefix: u32,
    name: u32,
    rev: u32,
    kind: Kind,
    space: Space,
    // The number of the word that the local name is, 0 where it is none, or that of a name that is live again.
    word: u8,
}

impl<'a> Model for Tag<'a> {
    ghost use Rattle.redl_tree.specs.Model.Starts.{Start};

    ghost Value = { Start };

    ghost use Rattle.redl_tree.specs.Model.Cuts.{start_of, IsCutTag};

    ghost view = { start_of };

    ghost invariant = { IsCutTag };
}

// The local name in a start tag with this text, where the prefix has `prefix` bytes and the name `name` bytes.
#[inline(always)]
fn local_name_in(text: &[u8], prefix: u32, name: u32) -> &[u8]
    requires { IsCut text.now prefix name }
    ensures { result.now ≡ local_in text.now prefix name }
{
    let name = &text[..name as usize];
    if prefix == 0 {
        return name;
    }
    &name[prefix as usize + 1..]
}

// The name in it, with its prefix and colon.
#[inline(always)]
fn full_name_in(text: &[u8], prefix: u32, name: u32) -> &[u8]
    requires { IsCut text.now prefix name }
    ensures { result.now ≡ name_text (take prefix text.now) (local_in text.now prefix name) }
{
    &text[..name as usize]
}

// All of it: the name and the tail.
#[inline(always)]
fn tag_text_in(text: &[u8], prefix: u32, name: u32) -> &[u8]
    requires { IsCut text.now prefix name }
    ensures { result.now ≡ name_text (take prefix text.now) (local_in text.now prefix name) ++ drop name text.now }
{
    text
}

// Whether the number is that of a name that is live again.
#[inline(always)]
fn is_live(word: u8) -> bool
    ensures { result ≡ is_live_number word }
{
    word == TEXT || word == INSTRUCTION
}

impl<'a> Tag<'a> {
    /// The start tag with this text, which is all between `<` and `>` or `/>`, of an element that is in no revision. The
    /// prefix has `prefix` bytes, 0 where there is none, and the name has `name` bytes with its prefix and colon.
    pub fn new(text: &'a [u8], prefix: u32, name: u32, space: Space) -> Tag<'a>
        requires { IsCut text.now prefix name }
        ensures { result ≡ start_in text.now prefix name space }
    {
        Tag {
            text,
            prefix,
            name,
            rev: 0,
            kind: Kind::Plain,
            space,
            word: number_in(space, local_name_in(text, prefix, name)),
        }
    }

    /// A tag equal to this one.
    pub fn copy(&self) -> Tag<'a>
        ensures { result ≡ self.now }
    {
        Tag {
            text: self.text,
            prefix: self.prefix,
            name: self.name,
            rev: self.rev,
            kind: self.kind,
            space: self.space,
            word: self.word,
        }
    }

    /// The prefix of the name, which is empty where there is none.
    pub fn prefix(&self) -> &'a [u8]
        ensures { result.now ≡ self.now.prefix }
    {
        &self.text[..self.prefix as usize]
    }

    /// The name without its prefix.
    #[inline(always)]
    pub fn local(&self) -> &'a [u8]
        ensures { result.now ≡ self.now.local }
    {
        match self.word {
            TEXT => b"t",
            INSTRUCTION => b"instrText",
            _ => local_name_in(self.text, self.prefix, self.name),
        }
    }

    /// All between the name and `>` or `/>`.
    pub fn tail(&self) -> &'a [u8]
        ensures { result.now ≡ self.now.tail }
    {
        &self.text[self.name as usize..]
    }

    /// The namespace of the name.
    #[inline(always)]
    pub fn space(&self) -> Space
        ensures { result ≡ self.now.space }
    {
        self.space
    }

    /// Whether the local name is this one, in the namespace of WordprocessingML.
    #[inline(always)]
    pub fn is_word(&self, word: Word) -> bool
        ensures { result ≡ (is_w self.now.space && bytes_eq self.now.local (name_of word)) }
    {
        self.word == word.number()
    }

    /// The kind of the element in its revision.
    pub fn kind(&self) -> Kind
        ensures { result ≡ self.now.kind }
    {
        self.kind
    }

    /// The number of the element's revision.
    pub fn rev(&self) -> u32
        ensures { result ≡ self.now.rev }
    {
        self.rev
    }

    /// Gives the element its kind and the number of its revision.
    pub fn set_label(&mut self, kind: Kind, rev: u32)
        ensures { self.new ≡ record self.old { kind = kind; rev = rev } }
    {
        self.kind = kind;
        self.rev = rev;
    }

    /// Gives the element the local name `t`.
    pub(crate) fn name_text(&mut self)
        ensures { self.new ≡ record self.old { local = codes "t" } }
    {
        self.word = TEXT;
    }

    /// Gives the element the local name `instrText`.
    pub(crate) fn name_instruction(&mut self)
        ensures { self.new ≡ record self.old { local = codes "instrText" } }
    {
        self.word = INSTRUCTION;
    }

    /// The prefix and its colon, or nothing where there is no prefix.
    pub fn prefix_with_colon(&self) -> &'a [u8]
        ensures { result.now ≡ prefix_text self.now.prefix }
    {
        if self.prefix == 0 {
            return b"";
        }
        &self.text[..self.prefix as usize + 1]
    }

    /// The name as it stands in the input, if the element has that name still.
    #[tactic(auto, using(crate::proofs::Roles::WordLaws::own_name))]
    pub fn name_in_input(&self) -> Option<&'a [u8]>
        ensures { IfSome result (λ name. name.now ≡ name_text self.now.prefix self.now.local) }
    {
        if is_live(self.word) {
            return None;
        }
        Some(full_name_in(self.text, self.prefix, self.name))
    }

    /// All between `<` and `>` or `/>` as it stands in the input, if the element has its name from there still.
    #[tactic(auto, using(crate::proofs::Roles::WordLaws::own_name))]
    pub fn text_in_input(&self) -> Option<&'a [u8]>
        ensures { IfSome result (λ text. text.now ≡ name_text self.now.prefix self.now.local ++ self.now.tail) }
    {
        if is_live(self.word) {
            return None;
        }
        Some(tag_text_in(self.text, self.prefix, self.name))
    }
}
