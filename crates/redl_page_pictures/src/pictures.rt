//! The pictures of a package.

ghost use Rattle.std.specs.Prelude.{◌≡◌, IfOk};
ghost use Rattle.redl_page_pictures.specs.Pictures.{package_pictures};

use crate::image::{Image, images_among};
use crate::lead::{PictureLead, leads_among};
use redl_opc::{Package, package_of};
use std::alloc::{AllocError, Global};
use std::marker::Model;

/// The pictures of a package, and where the relationships of pictures lead from its stories.
#[derive(Drop)]
pub struct Pictures<'a> {
    images: Vec<Image<'a>>,
    leads: Vec<PictureLead>,
}

impl<'a> Model for Pictures<'a> {
    ghost use Rattle.redl_page_pictures.specs.Pictures.{Pictures as Said};

    ghost Value = { Said };

    ghost view = { λ pictures. record { images = pictures.images.items; leads = pictures.leads.items } };
}

impl<'a> Pictures<'a> {
    /// Those of a package. `Err` means out of memory.
    ///
    /// It goes once over the parts, and takes no memory for the data of pictures. For each story it looks up the part that has its
    /// relationships.
    pub fn of(alloc: Global, pkg: &Package<'a>) -> Result<Pictures<'a>, AllocError>
        ensures { IfOk result (λ pictures. pictures ≡ package_pictures pkg.now) }
    {
        match package_of(pkg.nodes()) {
            Some(root) => {
                let images = images_among(alloc, root.kids())?;
                let leads = leads_among(alloc, pkg, root.kids())?;
                Ok(Pictures { images, leads })
            }
            None => Ok(Pictures {
                images: Vec::new(alloc),
                leads: Vec::new(alloc),
            }),
        }
    }

    /// The images, in the order of their parts.
    pub fn images(&self) -> &[Image<'a>]
        ensures { result.now ≡ self.now.images }
    {
        &self.images
    }

    /// Where relationships lead, in the order of their stories and of their own.
    pub fn leads(&self) -> &[PictureLead]
        ensures { result.now ≡ self.now.leads }
    {
        &self.leads
    }
}
