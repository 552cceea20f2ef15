// How many elements wait, and how many more could.
ghost use Rattle.std.specs.Prelude.{◌≡◌, length, ◌==◌};
ghost use Rattle.queue.specs.Waiting.{waiting, room};

use super::Queue;

impl<T: Copy> Queue<'_, T> {
    // How many elements wait.
    pub fn len(&self) -> usize
        ensures { result ≡ length (waiting self.now) }
    {
        self.count
    }

    // Whether no element waits.
    pub fn is_empty(&self) -> bool
        ensures { result ≡ (length (waiting self.now) == 0) }
    {
        self.len() == 0
    }

    // How many more elements `put` would accept now.
    pub fn free(&self) -> usize
        ensures { result ≡ room self.now }
    {
        self.places.len() - self.len()
    }
}
