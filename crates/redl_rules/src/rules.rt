//! The rules, of one element by itself. `kind` is its role, `here` sums up its ancestors, and `inner` those of its kids.

ghost use Rattle.std.specs.Prelude.{◌≡◌, ◌∷◌, ◌&&◌, not, [], false};
ghost use Rattle.redl_tree.specs.Roles.Names.{is, is_any};
ghost use Rattle.redl_tree.specs.Model.Kids.{some_element};
ghost use Rattle.redl_tree.specs.Roles.Kinds.{is_content};
ghost use Rattle.redl_tree.specs.Roles.Lists.{is_thick};
ghost use Rattle.redl_tree.specs.Roles.Idle.{is_idle_number};
ghost use Rattle.redl_tree.specs.Roles.Words.{name_of, number};
ghost use Rattle.redl_tree.specs.Rules.Tests.{implies, once, each_once, only_first, only_last};
ghost use Rattle.redl_tree.specs.Rules.Sound.{is_banned as is_banned_tag, is_banned_below_change as is_banned_below_change_tag, former_declares, change_declares as change_declares_by};
ghost use Rattle.redl_tree.specs.Model.View.{tag_of, kids_of, nodes_of};
ghost use Rattle.redl_rules.specs.Attributes.{declares};
ghost use Rattle.redl_rules.specs.Inside.Rules.{open_in, loses_tags as loses_tags_of, ends_well, has_cells, by_round_3, by_round_4, marks_once, props_in_place, by_round_6, by_round_7, by_round_8, by_round_9};

use crate::attributes::{declares_names, has_id};
use crate::ends::{end_of_nodes, has_own_cell, is_so_end};
use crate::kids::{changes_are_last, has_thick, is_once, is_only_first, is_only_last};
use crate::round::Round;
use redl_tree::{
    Around, Elem, Kind, Node, Parent, Reach, Word, has_elements, is_range_edge, is_word, prop_of,
};

/// A cell ends in a paragraph (rule 1).
#[inline(always)]
pub fn keeps_1(elem: &Elem, inner: Around) -> bool
    ensures { result ≡ ends_well inner.parent (kids_of elem.now) }
{
    match inner.parent() {
        Parent::Cell => is_so_end(end_of_nodes(elem.kids(), Reach::Direct)),
        _ => true,
    }
}

/// A row has a cell (rule 2).
#[inline(always)]
pub fn keeps_2(elem: &Elem, inner: Around) -> bool
    ensures { result ≡ has_cells inner.parent (kids_of elem.now) }
{
    match inner.parent() {
        Parent::Row => has_own_cell(elem.kids(), Reach::Direct),
        _ => true,
    }
}

/// A content revision holds no block (rule 3).
#[inline(always)]
pub fn keeps_3(elem: &Elem, kind: Kind, here: Around, round: Round) -> bool
    ensures { result ≡ by_round_3 here round kind (tag_of elem.now) (kids_of elem.now) }
{
    is_no_block_below(elem, here, round)
        && is_no_props_in(elem, here, round)
        && is_thin_among_blocks(elem, kind, round)
}

// No content revision holds a block at any depth, text boxes aside.
fn is_no_block_below(elem: &Elem, here: Around, round: Round) -> bool
    ensures { result ≡ implies (is_banned_tag (tag_of elem.now) && not here.quiet) (not round.below_content) }
{
    !round.below_content || here.is_quiet() || !is_banned(elem)
}

// No content revision has run properties or the content of a control as a kid.
fn is_no_props_in(elem: &Elem, here: Around, round: Round) -> bool
    ensures { result ≡ implies (open_in ("rPr" ∷ "sdtContent" ∷ []) here (tag_of elem.now)) (not round.in_content) }
{
    !round.in_content || here.is_quiet() || !is_run_props_or_control(elem)
}

// A content revision among blocks has no block as a kid.
fn is_thin_among_blocks(elem: &Elem, kind: Kind, round: Round) -> bool
    ensures { result ≡ implies (is_content kind && round.among_blocks)
        (not (some_element is_thick (kids_of elem.now))) }
{
    !is_content_among_blocks(kind, round) || !has_thick(elem.kids())
}

fn is_content_among_blocks(kind: Kind, round: Round) -> bool
    ensures { result ≡ (is_content kind && round.among_blocks) }
{
    round.among_blocks && kind.is_content()
}

// What no content revision holds, at any depth.
fn is_banned(elem: &Elem) -> bool
    ensures { result ≡ is_banned_tag (tag_of elem.now) }
{
    is_word(elem, Word::P)
        || is_word(elem, Word::Tbl)
        || is_word(elem, Word::Tr)
        || is_word(elem, Word::Tc)
        || is_word(elem, Word::PPr)
        || is_word(elem, Word::TblPr)
        || is_word(elem, Word::TblPrEx)
        || is_word(elem, Word::TrPr)
        || is_word(elem, Word::TcPr)
        || is_word(elem, Word::SectPr)
}

fn is_run_props_or_control(elem: &Elem) -> bool
    ensures { result ≡ is_any ("rPr" ∷ "sdtContent" ∷ []) (tag_of elem.now) }
{
    is_word(elem, Word::RPr) || is_word(elem, Word::SdtContent)
}

/// A change is the last kid (rule 4).
#[inline(always)]
pub fn keeps_4(elem: &Elem, inner: Around) -> bool
    ensures { result ≡ by_round_4 inner (kids_of elem.now) }
{
    changes_are_last(elem.kids(), inner)
}

/// Marks stand once (rule 5).
#[inline(always)]
pub fn keeps_5(elem: &Elem, inner: Around) -> bool
    ensures { result ≡ marks_once inner.parent (kids_of elem.now) }
{
    let kids = elem.kids();
    match inner.parent() {
        Parent::ParaProps => is_once(kids, Word::RPr),
        Parent::MarkProps => mark_is_once(kids),
        Parent::RowProps => row_is_once(kids),
        Parent::CellProps => cell_is_once(kids),
        _ => true,
    }
}

fn mark_is_once(kids: &[Node]) -> bool
    ensures { result ≡ each_once ("ins" ∷ "del" ∷ "moveFrom" ∷ "moveTo" ∷ []) (nodes_of kids.now) }
{
    is_once(kids, Word::Ins)
        && is_once(kids, Word::Del)
        && is_once(kids, Word::MoveFrom)
        && is_once(kids, Word::MoveTo)
}

fn row_is_once(kids: &[Node]) -> bool
    ensures { result ≡ each_once ("ins" ∷ "del" ∷ []) (nodes_of kids.now) }
{
    is_once(kids, Word::Ins) && is_once(kids, Word::Del)
}

fn cell_is_once(kids: &[Node]) -> bool
    ensures { result ≡ each_once ("cellIns" ∷ "cellDel" ∷ []) (nodes_of kids.now) }
{
    is_once(kids, Word::CellIns) && is_once(kids, Word::CellDel)
}

/// Properties stand once and in their place, and a control has one content (rule 6).
#[inline(always)]
pub fn keeps_6(elem: &Elem, inner: Around, here: Around) -> bool
    ensures { result ≡ by_round_6 inner here (tag_of elem.now) (kids_of elem.now) }
{
    has_props_in_place(elem.kids(), inner.parent()) && keeps_control(elem, here)
}

fn has_props_in_place(kids: &[Node], parent: Parent) -> bool
    ensures { result ≡ props_in_place parent (nodes_of kids.now) }
{
    match parent {
        Parent::Para => is_only_first(kids, Word::PPr),
        Parent::Row => is_once(kids, Word::TrPr),
        Parent::Cell => is_once(kids, Word::TcPr),
        Parent::Body => is_only_last(kids, Word::SectPr),
        _ => true,
    }
}

fn keeps_control(elem: &Elem, here: Around) -> bool
    ensures { result ≡ implies (is "sdt" (tag_of elem.now) && not here.quiet) (once "sdtContent" (kids_of elem.now)) }
{
    here.is_quiet() || !is_word(elem, Word::Sdt) || is_once(elem.kids(), Word::SdtContent)
}

/// A marker of a move holds no element (rule 7).
#[inline(always)]
pub fn keeps_7(elem: &Elem, here: Around) -> bool
    ensures { result ≡ by_round_7 here (tag_of elem.now) (kids_of elem.now) }
{
    if here.is_quiet() || !is_range_edge(elem) {
        return true;
    }
    !has_id(elem.tail()) || !has_elements(elem.kids())
}

/// Former properties hold no change element and no block (rule 8).
#[inline(always)]
pub fn keeps_8(elem: &Elem, round: Round) -> bool
    ensures { result ≡ by_round_8 round (tag_of elem.now) }
{
    !round.below_change || !is_banned_below_change(elem)
}

// What no change holds, at any depth.
fn is_banned_below_change(elem: &Elem) -> bool
    ensures { result ≡ is_banned_below_change_tag (tag_of elem.now) }
{
    prop_of(elem).is_some()
        || is_word(elem, Word::P)
        || is_word(elem, Word::Tbl)
        || is_word(elem, Word::Tr)
        || is_word(elem, Word::Tc)
        || is_word(elem, Word::TxbxContent)
}

/// What a decision can take the tags of declares no namespace (rule 9).
#[inline(always)]
pub fn keeps_9(elem: &Elem, kind: Kind, inner: Around) -> bool
    ensures { result ≡ by_round_9 inner.parent kind (tag_of elem.now) (kids_of elem.now) }
{
    keeps_own_tag(elem, kind, inner.parent()) && !change_declares(kind, elem.kids())
}

// Where a decision may remove the own tags of the element, these declare no namespace.
fn keeps_own_tag(elem: &Elem, kind: Kind, parent: Parent) -> bool
    ensures { result ≡ implies (loses_tags_of parent kind) (not (declares (tag_of elem.now).tail)) }
{
    !loses_tags(kind, parent) || !declares_names(elem.tail())
}

// Whether a decision may remove the tags of an element of this role, which is `parent` to its kids, and keep the kids.
fn loses_tags(kind: Kind, parent: Parent) -> bool
    ensures { result ≡ loses_tags_of parent kind }
{
    match (parent, kind) {
        (Parent::Para, _) | (_, Kind::Content(_) | Kind::Change(_)) => true,
        _ => false,
    }
}

// Whether the former properties in a change declare a namespace.
fn change_declares(kind: Kind, kids: &[Node]) -> bool
    ensures { result ≡ change_declares_by declares kind (nodes_of kids.now) }
{
    match kind {
        Kind::Change(prop) => former_declares_names(prop.word(), kids),
        _ => false,
    }
}

// Whether the first element with this name declares a namespace.
fn former_declares_names(word: Word, kids: &[Node]) -> bool
    requires asked { is_idle_number false (number word) ≡ false }
    ensures { result ≡ former_declares declares (name_of word) (nodes_of kids.now) }
{
    for node in kids {
        match node {
            Node::Elem(elem) => {
                if is_word(elem, word) {
                    return declares_names(elem.tail());
                }
            }
            Node::Bytes(_) => {}
            Node::Plain(_) => {}
        }
    }
    false
}
