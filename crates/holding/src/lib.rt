// A receiver's memory: its header (`front`), and where the position and the symbol with an ESI stand (`find`).
#![tactic(auto)]

pub mod find;
pub mod front;

ghost use Rattle.std.specs.Prelude.{◌≡◌};
ghost use Rattle.holding.specs.Inner.{shape_of};

use table::Shape;
use wire::{Esi, Setting};

// A receiver's header: its setting, whether it has a base, and the row and the ESI of that.
#[derive(Clone, Copy)]
pub struct Header {
    pub setting: Setting,
    pub joined: bool,
    pub oldest: usize,
    pub esi: Esi,
}

impl Header {
    // The shape of the window that it tells of.
    pub fn shape(self) -> Shape
        ensures { result ≡ shape_of self }
    {
        Shape {
            width: self.setting.width,
            size: self.setting.size,
            oldest: self.oldest,
        }
    }
}

// Where a known symbol stands, how many bytes it has, and whether it was heard.
#[derive(Clone, Copy)]
pub struct Spot {
    pub at: usize,
    pub size: usize,
    pub heard: bool,
}
