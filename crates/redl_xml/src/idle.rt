//! Elements that are passed over as they stand.

ghost use Rattle.std.specs.Prelude.{◌≡◌, ◌<◌, ◌+◌, ◌==◌, max, length, true, false, option_map, IfOk, IfSome, IsNone, Some, if◌then◌else◌};
ghost use Rattle.redl_grammar.specs.declared.section.Section.TheVariants.{InElement};
ghost use Rattle.redl_grammar.specs.ScanPieces.{piece_at};
ghost use Rattle.redl_tree.specs.declared.kinds.Space.TheVariants.{W};
ghost use Rattle.redl_tree.specs.Model.Folds.{nodes_in};
ghost use Rattle.redl_markup.specs.PieceViews.{piece_view};
ghost use Rattle.redl_xml.specs.Scopes.{Scope};
ghost use Rattle.redl_xml.specs.Inside.Passing.{HoldsOf, IsPlainIn, IsIdleIn, IsPassed, IsIdleText, PassesOn, ClosesLast, is_run_open, names_view, rest_behind};

use crate::closing::behind_end;
use crate::letters::pass_bare;
use crate::namespaces::{are_plain, element_space};
use crate::spaces::Spaces;
use redl_grammar::Section;
use redl_markup::{MarkupError, Name, Piece, StartTag, next_piece};
use redl_tree::{Plain, Space, is_idle_name};
use std::alloc::{AllocError, Global};

/// What was passed over.
#[derive(Clone, Copy)]
pub(crate) struct Idle<'a> {
    /// The bytes after it.
    pub(crate) rest: &'a [u8],
    /// How many nodes it has.
    pub(crate) nodes: usize,
    /// How many elements it has.
    pub(crate) elems: usize,
    /// How deep it goes.
    pub(crate) deepest: usize,
}

/// Where a try to pass over nodes ended.
#[derive(Drop)]
pub(crate) struct Tried<'a> {
    /// What was passed over, if anything was.
    pub(crate) idle: Option<Idle<'a>>,
    /// The piece after that with the bytes after the piece, if it was read.
    pub(crate) next: Option<(Piece<'a>, &'a [u8])>,
}

/// The same, with what a list of nodes keeps of what was passed over.
#[derive(Drop)]
pub(crate) struct Passed<'a> {
    /// What a list keeps of what was passed over, and how much that was.
    pub(crate) text: Option<(Plain<'a>, Idle<'a>)>,
    /// The piece after that with the bytes after the piece, if it was read.
    pub(crate) next: Option<(Piece<'a>, &'a [u8])>,
}

/// What tries share: how many bytes were left where the last one ended, and two lists to use again.
#[derive(Drop)]
pub(crate) struct TryState<'a> {
    /// How many bytes were left where the last one ended.
    pub(crate) left: usize,
    /// The names of the open elements.
    names: Vec<Name<'a>>,
    /// The names of a tag's attributes.
    pub(crate) list: Vec<Name<'a>>,
}

impl<'a> TryState<'a> {
    /// Where none was before these bytes.
    pub(crate) fn new(alloc: Global, bytes: &'a [u8]) -> TryState<'a> {
        TryState {
            left: bytes.len(),
            names: Vec::new(alloc),
            list: Vec::new(alloc),
        }
    }
}

// Whether a tag has this space and declares nothing.
fn is_plain_start<'a>(scopes: &mut Spaces<'a>, space: Space, tag: &StartTag<'a>) -> bool
    ensures plain { result ≡ true → HoldsOf (λ _. IsPlainIn scopes.old space) false space tag.now.name tag.now.tail }
    ensures same { scopes.new ≡ scopes.old }
{
    let name = tag.name();
    match element_space(scopes, name) {
        Some(own) => own == space && are_plain(scopes, name.prefix, tag.attributes()),
        None => false,
    }
}

// Whether an element with this start tag may be passed over, if all in it may.
fn is_idle_start<'a>(scopes: &mut Spaces<'a>, in_run: bool, tag: &StartTag<'a>) -> bool
    ensures idle { result ≡ true → HoldsOf (IsIdleIn scopes.old) in_run W tag.now.name tag.now.tail }
    ensures same { scopes.new ≡ scopes.old }
{
    is_idle_name(tag.name().local, in_run) && is_plain_start(scopes, Space::W, tag)
}

// Takes the innermost open element's end tag, if the bytes begin with that and there is no white space in it. Gives the bytes behind.
#[inline(always)]
fn close_last<'a>(names: &mut Vec<Name<'a>>, bytes: &'a [u8]) -> Option<&'a [u8]>
    ensures closed { IfSome result (λ rest. ClosesLast names.old.items names.new.items bytes.entry.now rest.now) }
    ensures none { IsNone result → names.new.items ≡ names.old.items }
{
    let name = *names.last()?;
    let rest = behind_end(bytes, name)?;
    names.pop();
    Some(rest)
}

// Whether the innermost of these open elements of W is a run.
fn is_run_open(names: &[Name<'_>]) -> bool
    ensures { result ≡ is_run_open W (names_view names.now) }
{
    match names.last() {
        Some(name) => name.local == b"r".as_slice(),
        None => false,
    }
}

// What was passed over with one more element, which is at this depth.
#[inline(always)]
fn with_element<'a>(now: Idle<'a>, rest: &'a [u8], depth: usize) -> Idle<'a>
    requires { (now.nodes < 18446744073709551615) × (now.elems < 18446744073709551615) }
    ensures { result ≡ record { rest = rest.entry; nodes = now.entry.nodes + 1; elems = now.entry.elems + 1; deepest = max now.entry.deepest depth } }
{
    Idle {
        rest,
        nodes: now.nodes + 1,
        elems: now.elems + 1,
        deepest: now.deepest.max(depth),
    }
}

// Takes a piece to the open elements, if it may be passed over there. Gives what was passed over with it.
#[inline(always)]
fn pass_piece<'a>(
    scopes: &mut Spaces<'a>,
    names: &mut Vec<Name<'a>>,
    piece: &Piece<'a>,
    now: Idle<'a>,
    rest: &'a [u8],
) -> Result<Option<Idle<'a>>, AllocError>
    requires { (now.nodes < 18446744073709551615) × (now.elems < 18446744073709551615) }
    ensures passed { IfOk result (λ o. IfSome o (λ more. PassesOn scopes.old names.old.items names.new.items (piece_view piece.now) now.entry more)) }
    ensures rest { IfOk result (λ o. IfSome o (λ more. more.rest ≡ rest.entry)) }
    ensures same { scopes.new ≡ scopes.old }
{
    let depth = names.len() + 1;
    match piece {
        Piece::Start(tag) => {
            if !is_idle_start(scopes, is_run_open(names), tag) {
                return Ok(None);
            }
            names.push(tag.name())?;
            Ok(Some(with_element(now, rest, depth)))
        }
        Piece::Empty(tag) => {
            if !is_idle_start(scopes, is_run_open(names), tag) {
                return Ok(None);
            }
            Ok(Some(with_element(now, rest, depth)))
        }
        Piece::Stretch(_) => Ok(Some(Idle {
            rest,
            nodes: now.nodes + 1,
            elems: now.elems,
            deepest: now.deepest,
        })),
        Piece::End(name, _) => match names.pop() {
            Some(last) if last == *name => Ok(Some(Idle {
                rest,
                nodes: now.nodes,
                elems: now.elems,
                deepest: now.deepest,
            })),
            _ => Ok(None),
        },
    }
}

// Gives the list of a tag's names back for the next tag.
fn give_back<'a>(list: &mut Vec<Name<'a>>, piece: Piece<'a>) {
    match piece {
        Piece::Start(tag) => *list = tag.into_attributes(),
        Piece::Empty(tag) => *list = tag.into_attributes(),
        Piece::Stretch(_) | Piece::End(_, _) => {}
    }
}

// The piece with which the bytes begin, if there is one, and the bytes after it. `Err` means out of memory.
fn some_piece<'a>(
    alloc: Global,
    list: &mut Vec<Name<'a>>,
    bytes: &'a [u8],
) -> Result<Option<(Piece<'a>, &'a [u8])>, AllocError>
    ensures { IfOk result (λ o. IfSome o (λ x. piece_at InElement bytes.entry.now ≡ Some (piece_view x.0, x.1.now))) }
{
    match next_piece(alloc, list, bytes, Section::InElement) {
        Ok(found) => Ok(Some(found)),
        Err(MarkupError::NoMemory) => Err(AllocError),
        Err(MarkupError::Unreadable) => Ok(None),
    }
}

// What was passed over when no element was open last: all, if none is now, else what was so before.
fn last_whole<'a>(names: &[Name<'_>], all: Idle<'a>, before: Option<Idle<'a>>) -> Option<Idle<'a>>
    ensures { result ≡ (if length names.now == 0 then Some all.entry else before.entry) }
{
    if names.is_empty() { Some(all) } else { before }
}

// What a list of nodes keeps of what was passed over. `None` where it holds no element, or is too long.
fn plain_of<'a>(idle: Idle<'a>, bytes: &'a [u8]) -> Option<Plain<'a>>
    requires { (scope : Scope) × IsPassed (IsIdleIn scope) W bytes.now idle.rest.now idle.nodes idle.elems idle.deepest }
    ensures { (scope : Scope) → IsPassed (IsIdleIn scope) W bytes.entry.now idle.entry.rest.now idle.entry.nodes idle.entry.elems idle.entry.deepest → IfSome result (λ plain. IsIdleText scope bytes.entry.now plain idle.entry.rest.now idle.entry.nodes idle.entry.deepest) }
{
    let Ok(nodes) = u32::try_from(idle.nodes) else {
        return None;
    };
    let Ok(elems) = u32::try_from(idle.elems) else {
        return None;
    };
    let text = &bytes[..bytes.len() - idle.rest.len()];
    if elems == 0 || u32::try_from(text.len()).is_err() {
        return None;
    }
    Some(Plain::new(text, nodes, elems))
}

// A try that ended before this piece. At depth 1 no element is open there, so the piece is the next one.
fn ended<'a>(
    list: &mut Vec<Name<'a>>,
    idle: Option<Idle<'a>>,
    depth: usize,
    piece: Piece<'a>,
    rest: &'a [u8],
) -> Tried<'a>
    ensures idle { result.idle ≡ idle.entry }
    ensures next { IfSome result.next (λ x. (depth ≡ 1) × (x ≡ (piece.entry, rest.entry))) }
{
    if depth == 1 {
        return Tried {
            idle,
            next: Some((piece, rest)),
        };
    }
    give_back(list, piece);
    Tried { idle, next: None }
}

/// Passes over the nodes with which the bytes begin, as long as all elements in them are idle. Nothing is said where it passes over
/// none. `Err` means out of memory.
pub(crate) fn skip_idle<'a>(
    alloc: Global,
    scopes: &mut Spaces<'a>,
    tries: &mut TryState<'a>,
    bytes: &'a [u8],
) -> Result<Tried<'a>, AllocError>
    ensures passed { IfOk result (λ tried. IfSome tried.idle (λ idle. IsPassed (IsIdleIn scopes.old) W bytes.entry.now idle.rest.now idle.nodes idle.elems idle.deepest)) }
    ensures next { IfOk result (λ tried. IfSome tried.next (λ x. piece_at InElement (rest_behind bytes.entry.now tried.idle) ≡ Some (piece_view x.0, x.1.now))) }
    ensures same { scopes.new ≡ scopes.old }
{
    tries.names.clear();
    let mut now = Idle {
        rest: bytes,
        nodes: 0,
        elems: 0,
        deepest: 0,
    };
    let mut whole: Option<Idle<'a>> = None;
    loop {
        if let Some(rest) = close_last(&mut tries.names, now.rest) {
            now.rest = rest;
            whole = last_whole(&tries.names, now, whole);
            continue;
        }
        let depth = tries.names.len() + 1;
        if let Some(rest) = pass_bare(scopes, &mut tries.names, now.rest)? {
            now = with_element(now, rest, depth);
            whole = last_whole(&tries.names, now, whole);
            continue;
        }
        tries.left = now.rest.len();
        let Some((piece, rest)) = some_piece(alloc, &mut tries.list, now.rest)? else {
            return Ok(Tried {
                idle: whole,
                next: None,
            });
        };
        let Some(more) = pass_piece(scopes, &mut tries.names, &piece, now, rest)? else {
            return Ok(ended(&mut tries.list, whole, depth, piece, rest));
        };
        now = more;
        whole = last_whole(&tries.names, now, whole);
        give_back(&mut tries.list, piece);
    }
}

/// The same with what a list of nodes keeps of it. Nothing is passed over also where that holds no element, or is too long.
pub(crate) fn skip_plain<'a>(
    alloc: Global,
    scopes: &mut Spaces<'a>,
    tries: &mut TryState<'a>,
    bytes: &'a [u8],
) -> Result<Passed<'a>, AllocError>
    ensures text { IfOk result (λ passed. IfSome passed.text (λ x. IsIdleText scopes.old bytes.entry.now x.0 x.1.rest.now x.1.nodes x.1.deepest)) }
    ensures next { IfOk result (λ passed. IfSome passed.next (λ x. piece_at InElement (rest_behind bytes.entry.now (option_map (λ x. x.1) passed.text)) ≡ Some (piece_view x.0, x.1.now))) }
    ensures same { scopes.new ≡ scopes.old }
{
    let tried = skip_idle(alloc, scopes, tries, bytes)?;
    let Some(idle) = tried.idle else {
        return Ok(Passed {
            text: None,
            next: tried.next,
        });
    };
    let Some(plain) = plain_of(idle, bytes) else {
        return Ok(Passed {
            text: None,
            next: None,
        });
    };
    Ok(Passed {
        text: Some((plain, idle)),
        next: tried.next,
    })
}
