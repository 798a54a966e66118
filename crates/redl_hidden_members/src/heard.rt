//! Whether anything was heard.

use redl_said::Ear;
use std::alloc::AllocError;

/// Whether any bytes were heard.
#[derive(Drop)]
pub(crate) struct Heard {
    pub(crate) any: bool,
}

impl Ear for Heard {
    ghost use Rattle.redl_hidden_members.specs.Inside.Heards.{heard, heard-nothing, heard-more};

    ghost heard = { heard };

    ghost heard_nothing = { heard-nothing };

    ghost heard_more = { heard-more };

    fn hear(&mut self, bytes: &[u8]) -> Result<(), AllocError> {
        self.any = self.any || !bytes.is_empty();
        Ok(())
    }

    fn is_full(&self) -> bool {
        self.any
    }
}
