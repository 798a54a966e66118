//! The list of pictures.

ghost use Rattle.std.specs.Prelude.{◌≡◌, ◌++◌, codes, filter};
ghost use Rattle.std.specs.List.{flat_map};
ghost use Rattle.redl_io.specs.Sink.{Puts};
ghost use Rattle.redl_html.specs.Escaping.{escaped};
ghost use Rattle.redl_html.specs.Pieces.{pieces_text};
ghost use Rattle.redl_page_pictures.specs.List.{image_end, image_item, image_start, is_base64, lead_item, pictures};

use crate::base64::put_base64;
use crate::image::Image;
use crate::lead::PictureLead;
use crate::pictures::Pictures;
use redl_html::put_escaped;
use redl_io::{Failed, Sink, put_piece};

/// Puts the pictures of a package: each image once, and then where relationships lead.
///
/// It goes once over the data of the images and takes no memory. `Failed` comes only where the sink failed, which then has only a
/// prefix.
pub fn put_pictures<K: Sink>(found: &Pictures<'_>, out: &mut K) -> Result<(), Failed>
    ensures { Puts K.told K.faults K.settled K.lenders out.old out.new (pieces_text (pictures found.now)) result }
{
    put_piece(b"<ul class=\"pictures\" hidden>\n", out)?;
    put_images(found.images(), out)?;
    put_leads(found.leads(), out)?;
    put_piece(b"</ul>\n", out)
}

fn put_images<K: Sink>(images: &[Image<'_>], out: &mut K) -> Result<(), Failed>
    ensures { Puts K.told K.faults K.settled K.lenders out.old out.new (pieces_text (flat_map image_item images.now)) result }
{
    for image in images {
        put_image(image, out)?;
    }
    Ok(())
}

fn put_image<K: Sink>(image: &Image<'_>, out: &mut K) -> Result<(), Failed>
    ensures { Puts K.told K.faults K.settled K.lenders out.old out.new (pieces_text (image_item image.now)) result }
{
    put_image_start(image, out)?;
    put_image_end(image, out)
}

fn put_image_start<K: Sink>(image: &Image<'_>, out: &mut K) -> Result<(), Failed>
    ensures { Puts K.told K.faults K.settled K.lenders out.old out.new (pieces_text (image_start image.now)) result }
{
    put_attribute(b"<li data-image=\"", image.name(), out)?;
    put_attribute(b"\"><img alt=\"\" src=\"data:", image.kind(), out)
}

fn put_image_end<K: Sink>(image: &Image<'_>, out: &mut K) -> Result<(), Failed>
    ensures { Puts K.told K.faults K.settled K.lenders out.old out.new (pieces_text (image_end image.now)) result }
{
    put_piece(b";base64,", out)?;
    put_base64(image.text(), out)?;
    put_piece(b"\"></li>\n", out)
}

// Puts what comes before a text from outside, and the text.
fn put_attribute<K: Sink>(before: &[u8], text: &[u8], out: &mut K) -> Result<(), Failed>
    ensures { Puts K.told K.faults K.settled K.lenders out.old out.new (before.now ++ escaped text.now) result }
{
    put_piece(before, out)?;
    put_escaped(text, out)
}

fn put_leads<K: Sink>(leads: &[PictureLead], out: &mut K) -> Result<(), Failed>
    ensures { Puts K.told K.faults K.settled K.lenders out.old out.new (pieces_text (flat_map lead_item leads.now)) result }
{
    for lead in leads {
        put_lead(lead, out)?;
    }
    Ok(())
}

fn put_lead<K: Sink>(lead: &PictureLead, out: &mut K) -> Result<(), Failed>
    ensures { Puts K.told K.faults K.settled K.lenders out.old out.new (pieces_text (lead_item lead.now)) result }
{
    put_attribute(b"<li data-part=\"", lead.source.as_bytes(), out)?;
    put_attribute(b"\" data-embed=\"", lead.id.as_bytes(), out)?;
    put_attribute(b"\" data-image=\"", lead.image.as_bytes(), out)?;
    put_piece(b"\"></li>\n", out)
}
