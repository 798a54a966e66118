//! How elements are shown that are in no revision.

ghost use Rattle.std.specs.Prelude.{◌≡◌, ◌||◌, codes, if◌then◌else◌};
ghost use Rattle.redl_tree.specs.Model.View.{nodes_of, item_of, tag_of, kids_of};
ghost use Rattle.redl_tree.specs.Roles.Names.{is, is_m, is_math, of_w};
ghost use Rattle.redl_idle.specs.Ahead.{Begins};
ghost use Rattle.redl_page_stories.specs.Inside.Idle.{idle_shape};
ghost use Rattle.redl_page_stories.specs.Shapes.{closing, hidden_shape, holds_blocks, holds_list, inline_named, inline_shape, is_block, is_foreign, is_other_form, is_paragraph, list_shape, math_shape, noted, opening, reference_shape, run_shape, set_shape, shape_named, shape_of};
ghost use Rattle.redl_page_stories.specs.Inside.Items.{item_holds};

use crate::emphasis::Emphasis;
use crate::place::{PageSummary, is_in_math};
use redl_hidden::HiddenStyles;
use redl_stamp::has_attribute;
use redl_tree::{Elem, Node, Space, Word, is_word};

/// What an element is shown as that is in no revision.
#[derive(Clone, Copy, Debug, PartialEq, Eq)]
pub(crate) enum Shape {
    /// It shows nothing of its own.
    Nothing,
    /// A paragraph of text.
    Paragraph,
    /// A paragraph that holds blocks, which a `p` of HTML can't.
    Division,
    /// A table.
    Table,
    /// A row of a table.
    Row,
    /// A cell of a row.
    Cell,
    /// What a text box holds.
    TextBox,
    /// A run in bold.
    Bold,
    /// A run in italics.
    Italic,
    /// A run in bold italics.
    BoldItalic,
    /// A hidden run.
    Hidden,
    /// A hidden run in bold.
    HiddenBold,
    /// A hidden run in italics.
    HiddenItalic,
    /// A hidden run in bold italics.
    HiddenBoldItalic,
    /// A tabulator.
    Tab,
    /// A break of a line, a column or a page.
    Break,
    /// A hyphen at which no line breaks.
    Hyphen,
    /// A hyphen that is seen only where a line breaks at it.
    SoftHyphen,
    /// A character of a font of symbols.
    Symbol,
    /// A picture, a drawing or an object.
    Picture,
    /// A reference to a note at the foot of a page.
    FootnoteReference,
    /// A reference to a note at the end of a section or of the document.
    EndnoteReference,
    /// Where what a comment is on starts.
    RemarkStart,
    /// Where it ends.
    RemarkEnd,
    /// A reference to a comment.
    RemarkReference,
    /// A note at the foot of a page that is no separator.
    Footnote,
    /// Such a note at the end of a section or of the document.
    Endnote,
    /// A comment.
    Remark,
    /// What may hold a list of blocks of its own.
    Blocks,
    /// What among blocks is one of its own, and no paragraph.
    Foreign,
    /// The second form of content that is kept in two.
    OtherForm,
    /// An equation.
    Equation,
    /// What a structure of an equation is about, or the upper part of a fraction.
    Argument,
    /// The lower part of a fraction.
    Divisor,
    /// What is below another part, or at its foot.
    Below,
    /// What is above another part, or at its head.
    Above,
    /// The degree of a root, or a row of a matrix.
    Bracketed,
    /// A root.
    Root,
    /// A sum, an integral or the like.
    Operator,
    /// A part with a sign over it.
    Accent,
    /// Parts between two delimiters.
    Delimiters,
}

impl Shape {
    /// The shape of an element that has this place.
    pub(crate) fn of(hidden: &HiddenStyles<'_>, place: PageSummary, elem: &Elem) -> Shape
        ensures { result ≡ shape_of hidden.now place (tag_of elem.now) (kids_of elem.now) }
    {
        if !place.loud {
            return Shape::Nothing;
        }
        Shape::named(hidden, place.hides, elem)
    }

    // Its shape by its name, in a paragraph that hides its runs or not.
    fn named(hidden: &HiddenStyles<'_>, paragraph: bool, elem: &Elem) -> Shape
        ensures { result ≡ shape_named hidden.now paragraph (tag_of elem.now) (kids_of elem.now) }
    {
        if is_word(elem, Word::P) {
            return Shape::of_paragraph(elem);
        }
        if is_word(elem, Word::R) {
            return Shape::of_run(hidden, paragraph, elem);
        }
        if is_word(elem, Word::Tbl) {
            return Shape::Table;
        }
        if is_word(elem, Word::Tr) {
            return Shape::Row;
        }
        if is_word(elem, Word::Tc) {
            return Shape::Cell;
        }
        if is_word(elem, Word::TxbxContent) {
            return Shape::TextBox;
        }
        if is_other_form(elem) {
            return Shape::OtherForm;
        }
        Shape::among_blocks(elem)
    }

    // The shape of an element that none of the names above is.
    fn among_blocks(elem: &Elem) -> Shape
        ensures { result ≡ (if holds_list (tag_of elem.now) then list_shape (tag_of elem.now)
            else if is_foreign (tag_of elem.now) then Shape.Foreign
            else if is_m (tag_of elem.now).space then math_shape (tag_of elem.now) else inline_named (tag_of elem.now)) }
    {
        if holds_list(elem) {
            return Shape::of_list(elem);
        }
        if is_foreign(elem) {
            return Shape::Foreign;
        }
        if elem.space() == Space::M {
            return Shape::of_math(elem);
        }
        Shape::inline(elem)
    }

    // The shape of an element that may hold a list of blocks of its own.
    fn of_list(elem: &Elem) -> Shape
        ensures { result ≡ list_shape (tag_of elem.now) }
    {
        if is_word(elem, Word::Footnote) {
            return Shape::noted(Shape::Footnote, elem);
        }
        if is_word(elem, Word::Endnote) {
            return Shape::noted(Shape::Endnote, elem);
        }
        if is_word(elem, Word::Comment) {
            return Shape::Remark;
        }
        Shape::Blocks
    }

    // The shape of a note, or of a separator.
    fn noted(note: Shape, elem: &Elem) -> Shape
        ensures { result ≡ noted note (tag_of elem.now) }
    {
        if has_attribute(elem.tail(), b"type") {
            return Shape::Blocks;
        }
        note
    }

    // The shape of an element of mathematics.
    fn of_math(elem: &Elem) -> Shape
        ensures { result ≡ math_shape (tag_of elem.now) }
    {
        if is_in_math(elem, b"oMath") {
            return Shape::Equation;
        }
        if is_in_math(elem, b"e") || is_in_math(elem, b"num") {
            return Shape::Argument;
        }
        if is_in_math(elem, b"den") {
            return Shape::Divisor;
        }
        if is_in_math(elem, b"sub") || is_in_math(elem, b"lim") {
            return Shape::Below;
        }
        if is_in_math(elem, b"sup") {
            return Shape::Above;
        }
        if is_in_math(elem, b"deg") || is_in_math(elem, b"mr") {
            return Shape::Bracketed;
        }
        Shape::signed(elem)
    }

    // The shape of one that has a sign, or else of none.
    fn signed(elem: &Elem) -> Shape
        ensures { result ≡ (if is_math "rad" (tag_of elem.now) then Shape.Root else if is_math "nary" (tag_of elem.now) then Shape.Operator
            else if is_math "acc" (tag_of elem.now) then Shape.Accent else if is_math "d" (tag_of elem.now) then Shape.Delimiters else Shape.Nothing) }
    {
        if is_in_math(elem, b"rad") {
            return Shape::Root;
        }
        if is_in_math(elem, b"nary") {
            return Shape::Operator;
        }
        if is_in_math(elem, b"acc") {
            return Shape::Accent;
        }
        if is_in_math(elem, b"d") {
            return Shape::Delimiters;
        }
        Shape::Nothing
    }

    fn of_paragraph(elem: &Elem) -> Shape
        ensures { result ≡ (if holds_blocks (kids_of elem.now) then Shape.Division else Shape.Paragraph) }
    {
        if holds_blocks(elem.kids()) {
            return Shape::Division;
        }
        Shape::Paragraph
    }

    fn of_run(hidden: &HiddenStyles<'_>, paragraph: bool, elem: &Elem) -> Shape
        ensures { result ≡ run_shape hidden.now paragraph (kids_of elem.now) }
    {
        Shape::set(
            hidden.run_hides(paragraph, elem),
            Emphasis::of_run(elem.kids()),
        )
    }

    // The shape of a run that is hidden or not, and set so.
    fn set(is_hidden: bool, emphasis: Emphasis) -> Shape
        ensures { result ≡ (if is_hidden then hidden_shape emphasis.bold emphasis.italic else set_shape emphasis.bold emphasis.italic) }
    {
        if is_hidden {
            return Shape::hidden(emphasis.bold, emphasis.italic);
        }
        Shape::seen(emphasis.bold, emphasis.italic)
    }

    fn hidden(bold: bool, italic: bool) -> Shape
        ensures { result ≡ hidden_shape bold italic }
    {
        match (bold, italic) {
            (false, false) => Shape::Hidden,
            (true, false) => Shape::HiddenBold,
            (false, true) => Shape::HiddenItalic,
            (true, true) => Shape::HiddenBoldItalic,
        }
    }

    fn seen(bold: bool, italic: bool) -> Shape
        ensures { result ≡ set_shape bold italic }
    {
        match (bold, italic) {
            (false, false) => Shape::Nothing,
            (true, false) => Shape::Bold,
            (false, true) => Shape::Italic,
            (true, true) => Shape::BoldItalic,
        }
    }

    fn inline(elem: &Elem) -> Shape
        ensures { result ≡ inline_named (tag_of elem.now) }
    {
        if elem.space() != Space::W {
            return Shape::Nothing;
        }
        Shape::inline_by(elem.local(), Shape::of_reference(elem.local()))
    }

    // The shape of an element of W with this local name that refers to a note or to a comment, or else of none.
    fn of_reference(local: &[u8]) -> Shape
        ensures { result ≡ reference_shape (of_w local.now) }
    {
        if local == b"footnoteReference".as_slice() {
            return Shape::FootnoteReference;
        }
        if local == b"endnoteReference".as_slice() {
            return Shape::EndnoteReference;
        }
        if local == b"commentRangeStart".as_slice() {
            return Shape::RemarkStart;
        }
        if local == b"commentRangeEnd".as_slice() {
            return Shape::RemarkEnd;
        }
        if local == b"commentReference".as_slice() {
            return Shape::RemarkReference;
        }
        Shape::Nothing
    }

    // The shape of an element of W with this local name, which as a reference is shown so.
    fn inline_by(local: &[u8], reference: Shape) -> Shape
        ensures { result ≡ inline_shape reference (of_w local.now) }
    {
        if local == b"tab".as_slice() {
            return Shape::Tab;
        }
        if local == b"br".as_slice() || local == b"cr".as_slice() {
            return Shape::Break;
        }
        if local == b"noBreakHyphen".as_slice() {
            return Shape::Hyphen;
        }
        if local == b"softHyphen".as_slice() {
            return Shape::SoftHyphen;
        }
        if local == b"sym".as_slice() {
            return Shape::Symbol;
        }
        if is_picture(local) {
            return Shape::Picture;
        }
        reference
    }

    /// The shape of an idle element that has this place and this local name, with whose kids a text begins.
    pub(crate) fn of_idle(
        hidden: &HiddenStyles<'_>,
        place: PageSummary,
        local: &[u8],
        ahead: &[u8],
    ) -> Shape
        requires { Begins ahead.now }
        ensures { (kids : Begins ahead.now) → result ≡ idle_shape hidden.now place local.now kids.nodes }
    {
        if !place.loud {
            return Shape::Nothing;
        }
        if local == b"r".as_slice() {
            return Shape::of_run_ahead(hidden, place.hides, ahead);
        }
        Shape::inline_by(local, Shape::of_reference(local))
    }

    fn of_run_ahead(hidden: &HiddenStyles<'_>, paragraph: bool, ahead: &[u8]) -> Shape
        requires { Begins ahead.now }
        ensures { (kids : Begins ahead.now) → result ≡ run_shape hidden.now paragraph kids.nodes }
    {
        Shape::set(
            hidden.run_hides_ahead(paragraph, ahead),
            Emphasis::of_run_ahead(ahead),
        )
    }

    /// Whether it is that of a paragraph.
    pub(crate) fn is_paragraph(self) -> bool
        ensures { result ≡ is_paragraph self }
    {
        matches!(self, Shape::Paragraph | Shape::Division)
    }

    /// What comes before the kids; the rest of a start tag and the sign of a note come behind it.
    pub(crate) fn opening(self) -> &'static [u8]
        ensures { result.now ≡ codes (opening self) }
    {
        match self {
            Shape::Nothing => b"",
            Shape::Paragraph => b"<p",
            Shape::Division => b"<div class=\"p\"",
            Shape::Table => b"<table>\n",
            Shape::Row => b"<tr>",
            Shape::Cell => b"<td",
            Shape::TextBox => b"<span class=\"box\">",
            Shape::Bold => b"<b>",
            Shape::Italic => b"<i>",
            Shape::BoldItalic => b"<b><i>",
            Shape::Hidden => b"<span class=\"hidden\">",
            Shape::HiddenBold => b"<span class=\"hidden\"><b>",
            Shape::HiddenItalic => b"<span class=\"hidden\"><i>",
            Shape::HiddenBoldItalic => b"<span class=\"hidden\"><b><i>",
            Shape::Tab => b"\t",
            Shape::Break => b"<br>",
            Shape::Hyphen => b"&#8209;",
            Shape::SoftHyphen => b"&#173;",
            Shape::Picture => b"<span class=\"picture\"",
            Shape::Symbol => b"<span class=\"symbol\">",
            Shape::FootnoteReference => b"<sup>",
            Shape::EndnoteReference => b"<sup>",
            Shape::RemarkStart => b"<span class=\"remark-start\"",
            Shape::RemarkEnd => b"<span class=\"remark-end\"",
            Shape::RemarkReference => b"<sup class=\"remark\"",
            Shape::Footnote => b"<!--list--><sup>",
            Shape::Endnote => b"<!--list--><sup>",
            Shape::Remark => b"<!--list--><span class=\"remark-own\"",
            Shape::Blocks => b"<!--list-->",
            Shape::Foreign => b"<!--other-->",
            Shape::OtherForm => b"<details><summary>kept in another form</summary>",
            Shape::Equation => b"<span class=\"equation\">",
            Shape::Argument => b"(",
            Shape::Divisor => b"/(",
            Shape::Below => b"_(",
            Shape::Above => b"^(",
            Shape::Bracketed => b"[",
            Shape::Root => b"&#8730;",
            Shape::Operator => b"",
            Shape::Accent => b"&#9676;",
            Shape::Delimiters => b"",
        }
    }

    /// What comes after them.
    pub(crate) fn closing(self) -> &'static [u8]
        ensures { result.now ≡ codes (closing self) }
    {
        match self {
            Shape::Paragraph => b"</p>\n",
            Shape::Division => b"</div>\n",
            Shape::Table => b"</table>\n",
            Shape::Row => b"</tr>\n",
            Shape::Cell => b"</td>",
            Shape::TextBox => b"</span>",
            Shape::Bold => b"</b>",
            Shape::Italic => b"</i>",
            Shape::BoldItalic => b"</i></b>",
            Shape::Hidden => b"</span>",
            Shape::HiddenBold => b"</b></span>",
            Shape::HiddenItalic => b"</i></span>",
            Shape::HiddenBoldItalic => b"</i></b></span>",
            Shape::OtherForm => b"</details>",
            Shape::Nothing => b"",
            Shape::Tab => b"",
            Shape::Break => b"",
            Shape::Hyphen => b"",
            Shape::SoftHyphen => b"",
            Shape::Symbol => b"",
            Shape::Picture => b"",
            Shape::FootnoteReference => b"",
            Shape::EndnoteReference => b"",
            Shape::RemarkStart => b"</span>",
            Shape::RemarkEnd => b"</span>",
            Shape::RemarkReference => b"</sup>",
            Shape::Footnote => b"<!--/list-->",
            Shape::Endnote => b"<!--/list-->",
            Shape::Remark => b"<!--/list-->",
            Shape::Blocks => b"<!--/list-->",
            Shape::Foreign => b"<!--/other-->",
            Shape::Equation => b"</span>",
            Shape::Argument => b")",
            Shape::Divisor => b")",
            Shape::Below => b")",
            Shape::Above => b")",
            Shape::Bracketed => b"]",
            Shape::Root => b"",
            Shape::Operator => b"",
            Shape::Accent => b"",
            Shape::Delimiters => b"",
        }
    }
}

// Whether an element of W with this local name is a picture.
fn is_picture(local: &[u8]) -> bool
    ensures { result ≡ (is "drawing" (of_w local.now) || is "pict" (of_w local.now) || is "object" (of_w local.now)) }
{
    local == b"drawing".as_slice() || local == b"pict".as_slice() || local == b"object".as_slice()
}

// Whether an element may hold a list of blocks of its own.
fn holds_list(elem: &Elem) -> bool
    ensures { result ≡ holds_list (tag_of elem.now) }
{
    is_word(elem, Word::Sdt)
        || is_word(elem, Word::CustomXml)
        || is_word(elem, Word::Footnote)
        || is_word(elem, Word::Endnote)
        || is_word(elem, Word::Comment)
}

// Whether an element is, among blocks, one of its own and no paragraph.
fn is_foreign(elem: &Elem) -> bool
    ensures { result ≡ is_foreign (tag_of elem.now) }
{
    is_word(elem, Word::AltChunk) || elem.space() == Space::Other
}

// Whether an element is the second form of content that a file keeps in two.
fn is_other_form(elem: &Elem) -> bool
    ensures { result ≡ is_other_form (tag_of elem.now) }
{
    elem.space() == Space::Other && elem.local() == b"Fallback".as_slice()
}

// Whether a `p` of HTML can't hold an element.
fn is_block(elem: &Elem) -> bool
    ensures { result ≡ is_block (tag_of elem.now) }
{
    is_word(elem, Word::P) || is_word(elem, Word::Tbl) || is_other_form(elem)
}

// Whether there is such an element at some depth.
#[cycle(blocks)]
fn holds_blocks(nodes: &[Node]) -> bool
    ensures { result ≡ holds_blocks (nodes_of nodes.now) }
{
    for node in nodes {
        if node_holds(node) {
            return true;
        }
    }
    false
}

#[cycle(blocks)]
fn node_holds(node: &Node) -> bool
    ensures { result ≡ item_holds (item_of node.now) }
{
    match node {
        Node::Elem(elem) => is_block(elem) || holds_blocks(elem.kids()),
        Node::Bytes(_) => false,
        Node::Plain(_) => false,
    }
}
