// What puts elements in at one end and takes them out at the other.
ghost use Rattle.std.specs.Prelude.{◌≡◌, ◌+◌, ◌-◌, ◌<◌, ◌≤◌, [], ◌∷◌, ◌++◌, length, is_ok, if◌then◌else◌, MatchOption, nat_lt, slice_index_or};
ghost use Rattle.queue.specs.Ring.{onward};
ghost use Rattle.queue.specs.Waiting.{capacity, room, SamePlaces, waiting};

use super::Queue;
use crate::refusal::Full;

impl<'a, T: Copy> Queue<'a, T> {
    // An empty queue over all of the slice.
    pub fn new(places: &'a mut [T]) -> Queue<'a, T>
        ensures list { waiting result ≡ [] }
        ensures size { capacity result ≡ length places.old }
        ensures lender { result.places.ghost_name ≡ places.entry.ghost_name }
    {
        Queue {
            places,
            first: 0,
            count: 0,
        }
    }

    // Adds x behind the others, unless every place holds a waiting element.
    pub fn put(&mut self, x: T) -> Result<(), Full>
        ensures accepts { is_ok result ≡ nat_lt 0 (room self.old) }
        ensures list { waiting self.new ≡ (if is_ok result then waiting self.old ++ x ∷ [] else waiting self.old) }
        ensures left { room self.new ≡ room self.old - 1 }
        ensures places { SamePlaces self.old self.new }
    {
        if self.count == self.places.len() {
            return Err(Full);
        }
        let count = self.count;
        let at = self.place(count);
        self.fill(at, x);
        Ok(())
    }

    // The oldest waiting element, which no longer waits then.
    pub fn take(&mut self) -> Option<T>
        ensures list { MatchOption result ((waiting self.old ≡ []) × (waiting self.new ≡ [])) (λ x. waiting self.old ≡ x ∷ waiting self.new) }
        ensures left { MatchOption result (room self.new ≡ room self.old) (λ _. room self.new ≡ room self.old + 1) }
        ensures places { SamePlaces self.old self.new }
    {
        if self.count == 0 {
            return None;
        }
        let oldest = self.places[self.first];
        let next = self.place(1);
        self.advance(next);
        Some(oldest)
    }

    // The place k places behind the first. It compares before it adds, since the sum could pass the largest number.
    fn place(&self, k: usize) -> usize
        requires some { 0 < capacity self.now }
        requires within { k ≤ capacity self.now }
        ensures { result ≡ onward (capacity self.now) self.now.first k }
    {
        let to_end = self.places.len() - self.first;
        if k < to_end {
            self.first + k
        } else {
            k - to_end
        }
    }

    // Adds x in the free place behind the last waiting element.
    fn fill(&mut self, at: usize, x: T)
        requires some { self.old.count < capacity self.old }
        requires behind { at ≡ onward (capacity self.old) self.old.first self.old.count }
        ensures list { waiting self.new ≡ waiting self.old ++ x ∷ [] }
        ensures more { self.new.count ≡ self.old.count + 1 }
        ensures places { SamePlaces self.old self.new }
    {
        self.places[at] = x;
        self.count += 1;
    }

    // Leaves the oldest waiting element's place free.
    fn advance(&mut self, next: usize)
        requires some { 0 < self.old.count }
        requires behind { next ≡ onward (capacity self.old) self.old.first 1 }
        ensures list { (d : T) → waiting self.old ≡ slice_index_or self.old.places.now self.old.first d ∷ waiting self.new }
        ensures less { self.new.count + 1 ≡ self.old.count }
        ensures places { SamePlaces self.old self.new }
    {
        self.first = next;
        self.count -= 1;
    }
}
