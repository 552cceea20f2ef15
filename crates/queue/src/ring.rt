// The queue itself; what it does is in the modules below, since a contract cannot stand in the file of the struct that it speaks of.
ghost use Rattle.std.specs.Prelude.{◌≡◌, ◌-◌, ◌^◌, ◌<◌, ◌≤◌, length};
ghost use Rattle.queue.specs.Ring.{around};

mod counts;
mod ends;

// The oldest waiting element stands at `first`, and the others follow it, past the slice's end at its start.
#[derive(Drop)]
pub struct Queue<'a, T> {
    places: &'a mut [T],
    first: usize,
    count: usize,
    ghost bounded: { length places.now < 2 ^ 64 },
    ghost inside: { first ≤ length places.now - 1 },
    ghost held: { count ≤ length places.now },
    ghost counted: { length (around first count places.now) ≡ count },
}
