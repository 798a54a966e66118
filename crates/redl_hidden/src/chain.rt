//! What the chains of styles say.

ghost use Rattle.std.specs.Prelude.{◌≡◌, ℕ, IfOk, Option, List};
ghost use Rattle.redl_hidden.specs.Styles.{Style as StyleSaid, base_of, chain_hides, place_of};
ghost use Rattle.redl_hidden.specs.Inside.Chains.{doubled, first_link, first_links, joined, link_at, next_by, rounds, said_by};
ghost use Rattle.redl_hidden.specs.Inside.Known.{place_in};

use crate::places::Places;
use crate::style::Style;
use std::alloc::{AllocError, Global};

// A package has fewer than 2^32 styles, so after so many rounds all of a chain was looked at.
const ROUNDS: usize = 32;

/// What the nearest of some styles in a chain says, and the place of the one behind them.
#[derive(Clone, Copy)]
pub(crate) struct Link {
    /// What they say.
    pub said: Option<bool>,
    /// The place of the next one.
    pub next: Option<usize>,
}

/// What the chain of each of these styles says. `Err` means out of memory, here and below.
pub(crate) fn chains_of(
    alloc: Global,
    styles: &[Style<'_>],
    places: &Places<'_>,
) -> Result<Vec<Link>, AllocError>
    requires { (id : List ℕ) → place_in places.now id ≡ place_of styles.now id }
    ensures { IfOk result (λ links. (place : Option ℕ) → said_by (link_at links.items place) ≡ chain_hides styles.now place) }
{
    let mut links = first_links(alloc, styles, places)?;
    for _ in 0..ROUNDS {
        links = doubled(alloc, &links)?;
    }
    Ok(links)
}

fn first_links(
    alloc: Global,
    styles: &[Style<'_>],
    places: &Places<'_>,
) -> Result<Vec<Link>, AllocError>
    requires { (id : List ℕ) → place_in places.now id ≡ place_of styles.now id }
    ensures { IfOk result (λ links. links.items ≡ first_links styles.now) }
{
    let mut links = Vec::with_capacity(alloc, styles.len())?;
    for style in styles {
        links.push(first_link(style, places))?;
    }
    Ok(links)
}

fn first_link(style: &Style<'_>, places: &Places<'_>) -> Link
    ensures { (styles : List StyleSaid) → ((id : List ℕ) → place_in places.now id ≡ place_of styles id) → result ≡ first_link styles style.now }
{
    Link {
        said: style.vanish(),
        next: base_in(style, places),
    }
}

// The place of the style that it is based on.
fn base_in(style: &Style<'_>, places: &Places<'_>) -> Option<usize>
    ensures { (styles : List StyleSaid) → ((id : List ℕ) → place_in places.now id ≡ place_of styles id) → result ≡ base_of styles style.now }
{
    places.place(style.base()?)
}

// One round more: each style gets what the one behind its own says.
fn doubled(alloc: Global, links: &[Link]) -> Result<Vec<Link>, AllocError>
    ensures { IfOk result (λ more. more.items ≡ doubled links.now) }
{
    let mut more = Vec::with_capacity(alloc, links.len())?;
    for link in links {
        more.push(joined(links, *link))?;
    }
    Ok(more)
}

fn joined(links: &[Link], link: Link) -> Link
    ensures { result ≡ joined links.now link }
{
    let Some(next) = link_at(links, link.next) else {
        return Link {
            said: link.said,
            next: None,
        };
    };
    Link {
        said: link.said.or(next.said),
        next: next.next,
    }
}

/// What is known of the style in this place.
pub(crate) fn link_at(links: &[Link], place: Option<usize>) -> Option<Link>
    ensures { result ≡ link_at links.now place }
{
    links.get(place?).copied()
}

/// What the chain of the style in this place says.
pub(crate) fn said_at(links: &[Link], place: Option<usize>) -> Option<bool>
    ensures { result ≡ said_by (link_at links.now place) }
{
    link_at(links, place)?.said
}
