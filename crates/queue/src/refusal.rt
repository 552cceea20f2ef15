ghost use Rattle.std.specs.Prelude.{◌≡◌};
ghost use Rattle.queue.specs.Refusal.{number};

// The refusal of an element: every place holds one that waits.
#[derive(Clone, Copy, Debug, PartialEq, Eq)]
pub struct Full;

impl Full {
    // The number that stands for the refusal outside the program. One constant: a trait of such numbers would say no
    // more.
    pub fn number(&self) -> u8
        ensures { result ≡ number self.now }
    {
        19
    }
}
