//! How deep elements are that a list keeps as text.

ghost use Rattle.std.specs.Prelude.{◌≡◌};
ghost use Rattle.redl_again.specs.Inside.Depth.{passes};
ghost use Rattle.redl_tree.specs.Model.IdleTexts.{idle_nodes};

use redl_idle::{Shows, show};
use redl_tree::Plain;
use std::convert::Infallible;

/// Whether idle elements go deeper than so many levels. It takes no memory.
pub(crate) fn goes_deeper(plain: &Plain, levels: usize) -> bool
    ensures { result ≡ passes levels (idle_nodes plain.now) }
{
    // Mostly there are not even so many elements.
    if plain.elems() as usize <= levels {
        return false;
    }
    let mut met = Met { deeper: false };
    match show(plain, &Room { levels }, &mut met) {
        Ok(()) => met.deeper,
        Err(never) => match never {},
    }
}

// Whether an element was met that is too deep.
#[derive(Drop)]
struct Met {
    deeper: bool,
}

// How many levels there may be below an element.
#[derive(Clone, Copy)]
struct Room {
    levels: usize,
}

impl Shows<Met> for Room {
    ghost use Rattle.redl_again.specs.Idle.{by_met, idle_rule};

    type Error = Infallible;

    ghost rule = { idle_rule };

    ghost taking = { by_met };

    fn put_bytes(&self, _bytes: &[u8], _met: &mut Met) -> Result<(), Infallible> {
        Ok(())
    }

    fn enter(
        &self,
        _local: &[u8],
        _tail: &[u8],
        _ahead: &[u8],
        met: &mut Met,
    ) -> Result<Self, Infallible> {
        if self.levels == 0 {
            met.deeper = true;
        }
        Ok(Room {
            levels: self.levels.saturating_sub(1),
        })
    }

    fn leave(&self, _met: &mut Met) -> Result<(), Infallible> {
        Ok(())
    }
}
