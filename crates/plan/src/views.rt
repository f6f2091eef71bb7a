//! What a plan shows of itself.
ghost use Rattle.std.specs.Prelude.{◌≡◌};
ghost use Rattle.lots.specs.Tables.{Lawful};

use crate::Plan;
use lots::Lot;

impl Plan {
    /// The machine's capacity in trays, from 1 to 200.
    pub fn capacity(&self) -> u16
        ensures exact { result ≡ self.now.capacity }
    {
        self.capacity
    }

    /// The lots by number, each with the window that the plan has left it.
    pub fn lots(&self) -> &[Lot]
        ensures exact { result.now ≡ self.now.lots }
        ensures lawful { Lawful self.now.capacity self.now.lots }
    {
        self.lots.as_slice()
    }
}
