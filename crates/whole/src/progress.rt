// A sheet that goes on: what was kept of it so far.
ghost use Rattle.std.specs.Prelude.{◌≡◌, false, [], ◌∷◌, OnOk};
ghost use Rattle.whole.specs.Keeping.{Gains, stop_faults};

use crate::keeper::Keeper;
use reader::Stop;
use sheet::{Fault, Token};

// So many places are free for each call that writes: more than any call needs.
const PLACES: usize = 128;

// What keeps the sheet's tokens and faults, whether anything was refused of it, and the places that each call writes
// into. The flag goes with no value: what is kept counts in both states.
#[derive(Drop)]
pub struct Progress<K> {
    pub keeper: K,
    pub refused: bool,
    pub places: [Token; PLACES],
}

impl<K: Keeper> Progress<K> {
    // Of a sheet of which nothing was fed yet.
    pub fn new(keeper: K) -> Progress<K>
        ensures keeper { result.keeper ≡ keeper }
        ensures refused { result.refused ≡ false }
    {
        Progress {
            keeper,
            refused: false,
            places: [Token::default(); PLACES],
        }
    }

    // Keeps a fault.
    pub fn fault(&mut self, fault: Fault) -> Result<(), K::Error>
        ensures { OnOk result (Gains K.kept self.old [] (fault ∷ []) self.new) }
    {
        self.refused = true;
        self.keeper.fault(fault)
    }

    // Keeps the fault at which a reading stopped, if it did at one.
    pub fn stop(&mut self, stop: Stop) -> Result<(), K::Error>
        ensures { OnOk result (Gains K.kept self.old [] (stop_faults stop) self.new) }
    {
        match stop {
            Stop::Fault(fault) => self.fault(fault),
            Stop::Full(_) => Ok(()),
        }
    }
}
