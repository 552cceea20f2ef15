// What keeps the tokens and the faults of a sheet as they come.
ghost use Rattle.std.specs.Prelude.{◌≡◌, List, [], ◌∷◌, OnOk};
ghost use Rattle.queue.specs.Waiting.{SamePlaces, waiting};
ghost use Rattle.sheet.specs.declared.fault.Fault.{Fault as fault_of_sheet};
ghost use Rattle.sheet.specs.declared.lexeme.Token.{Token as token_of_sheet};
ghost use Rattle.whole.specs.Keeping.{Keeping};

use queue::Queue;
use sheet::{Fault, Token};

pub trait Keeper: Drop {
    // Keeping these tokens and these faults, behind what it has, may lead from one to the other.
    ghost kept: { Self → List token_of_sheet → List fault_of_sheet → Self → Type 0 };

    // Why it can keep no more.
    type Error;

    // Takes all waiting tokens out of a queue and keeps them.
    fn tokens(&mut self, queue: &mut Queue<'_, Token>) -> Result<(), Self::Error>
        ensures kept { OnOk result (kept self.old (waiting queue.old) [] self.new) }
        ensures emptied { OnOk result (waiting queue.new ≡ []) }
        ensures places { SamePlaces queue.old queue.new };

    // Keeps a fault.
    fn fault(&mut self, fault: Fault) -> Result<(), Self::Error>
        ensures { OnOk result (kept self.old [] (fault ∷ []) self.new) };

    ghost laws: { Keeping kept };
}
