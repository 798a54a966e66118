//! What idle elements show, read from the front of their text.

ghost use Rattle.std.specs.Prelude.{◌≡◌, ◌++◌, IfOk};
ghost use Rattle.redl_markup.specs.PieceViews.{bare_view};
ghost use Rattle.redl_tree.specs.Model.IdleTexts.{idle_nodes};
ghost use Rattle.redl_tree.specs.Model.Nodes.{no_nodes};
ghost use Rattle.redl_idle.specs.Shows.{ShowRule, shows, element_shows};
ghost use Rattle.redl_idle.specs.Takes.{Taking, Takes};
ghost use Rattle.redl_idle.specs.Ahead.{Begins, IsNode, node_shows, after_node, behind, is_end_tag};

use redl_markup::{BarePiece, known_piece};
use redl_tree::Plain;

/// How nodes are shown to `K`, which takes the text. It is what an element hands down to its kids.
pub trait Shows<K>: Copy {
    /// Why it stops before the end.
    type Error;

    // What is shown, as contracts see it.
    ghost rule: { ShowRule Self };

    // How what takes the text changes by that.
    ghost taking: { Taking K Self.Error };

    /// Puts what bytes show.
    fn put_bytes(&self, bytes: &[u8], out: &mut K) -> Result<(), Self::Error>
        ensures { Takes Self.taking out.old out.new ((Self.rule).bytes self.now bytes.now) result };

    /// Puts what an element with this local name and tail shows before its kids, and gives what it hands down to them. The text
    /// `ahead` begins with its kids.
    fn enter(
        &self,
        local: &[u8],
        tail: &[u8],
        ahead: &[u8],
        out: &mut K,
    ) -> Result<Self, Self::Error>
        requires { Begins ahead.now }
        ensures puts { (kids : Begins ahead.now) → Takes Self.taking out.old out.new ((Self.rule).start self.now local.now tail.now kids.nodes) result }
        ensures inside { (kids : Begins ahead.now) → IfOk result (λ inside. inside ≡ (Self.rule).inside self.now local.now tail.now kids.nodes) };

    /// Puts what an element shows after its kids, where this was handed down to them.
    fn leave(&self, out: &mut K) -> Result<(), Self::Error>
        ensures { Takes Self.taking out.old out.new ((Self.rule).end self.now) result };
}

/// Puts what idle elements show. It takes no memory.
pub fn show<K, S: Shows<K>>(plain: &Plain<'_>, below: &S, out: &mut K) -> Result<(), S::Error>
    ensures { Takes S.taking out.old out.new (shows S.rule below.now (idle_nodes plain.now)) result }
{
    show_ahead(plain.text(), below, out)
}

/// Puts what the nodes show with which a text begins. It takes no memory.
pub fn show_ahead<K, S: Shows<K>>(text: &[u8], below: &S, out: &mut K) -> Result<(), S::Error>
    requires { Begins text.now }
    ensures { (begin : Begins text.now) → Takes S.taking out.old out.new (shows S.rule below.now begin.nodes) result }
{
    show_nodes(text, below, out)?;
    Ok(())
}

// Puts what the nodes show with which a text begins, and gives the text behind them.
#[cycle(show)]
fn show_nodes<'a, K, S: Shows<K>>(
    text: &'a [u8],
    below: &S,
    out: &mut K,
) -> Result<&'a [u8], S::Error>
    requires { Begins text.now }
    ensures puts { (begin : Begins text.now) → Takes S.taking out.old out.new (shows S.rule below.now begin.nodes) result }
    ensures behind { (begin : Begins text.now) → IfOk result (λ rest. rest.now ≡ behind begin.ending) }
{
    let mut left = text;
    while !left.is_empty() {
        let (piece, rest) = known_piece(left).unwrap();
        if is_end(&piece) {
            return Ok(rest);
        }
        left = show_node(piece, rest, below, out)?;
    }
    Ok(left)
}

fn is_end(piece: &BarePiece<'_>) -> bool
    ensures { result ≡ is_end_tag (bare_view piece.now) }
{
    matches!(piece, BarePiece::End(_, _))
}

// Puts what a node shows that begins with this piece, and gives the text behind it, where this text follows the piece.
#[cycle(show)]
fn show_node<'a, K, S: Shows<K>>(
    piece: BarePiece<'_>,
    rest: &'a [u8],
    below: &S,
    out: &mut K,
) -> Result<&'a [u8], S::Error>
    requires { IsNode (bare_view piece) rest.now }
    ensures puts { (node : IsNode (bare_view piece.entry) rest.now) → Takes S.taking out.old out.new (node_shows S.rule below.now (bare_view piece.entry) rest.now node) result }
    ensures after { (node : IsNode (bare_view piece.entry) rest.now) → IfOk result (λ after. after.now ≡ after_node (bare_view piece.entry) rest.now node) }
{
    match piece {
        BarePiece::Start(tag) => show_elem(tag.name().local, tag.tail(), rest, below, out),
        BarePiece::Empty(tag) => {
            show_empty(tag.name().local, tag.tail(), below, out)?;
            Ok(rest)
        }
        BarePiece::Stretch(bytes) => {
            below.put_bytes(bytes, out)?;
            Ok(rest)
        }
        BarePiece::End(_, _) => Ok(rest),
    }
}

// Puts what an element shows with this local name and tail, and gives the text behind it, where this text follows its start tag.
#[cycle(show)]
fn show_elem<'a, K, S: Shows<K>>(
    local: &[u8],
    tail: &[u8],
    rest: &'a [u8],
    below: &S,
    out: &mut K,
) -> Result<&'a [u8], S::Error>
    requires { Begins rest.now }
    ensures puts { (kids : Begins rest.now) → Takes S.taking out.old out.new (element_shows S.rule below.now local.now tail.now kids.nodes) result }
    ensures after { (kids : Begins rest.now) → IfOk result (λ after. after.now ≡ behind kids.ending) }
{
    let inside = below.enter(local, tail, rest, out)?;
    let after = show_nodes(rest, &inside, out)?;
    inside.leave(out)?;
    Ok(after)
}

// Puts what an element shows that has no kids.
fn show_empty<K, S: Shows<K>>(
    local: &[u8],
    tail: &[u8],
    below: &S,
    out: &mut K,
) -> Result<(), S::Error>
    ensures { Takes S.taking out.old out.new (element_shows S.rule below.now local.now tail.now no_nodes) result }
{
    let inside = below.enter(local, tail, b"", out)?;
    inside.leave(out)
}
