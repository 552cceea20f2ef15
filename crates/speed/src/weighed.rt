// What is added up: each value adds its weight to a number.
ghost use Rattle.std.specs.Prelude.{◌≡◌, ℕ, ◌+◌, ◌%◌, ◌^◌, [], sum_by};
ghost use Rattle.queue.specs.Waiting.{SamePlaces, waiting};
ghost use Rattle.speed.specs.Sums.{fault_weight};

use queue::Queue;
use sheet::Fault;

pub trait Weighed: Copy {
    ghost weight: { Self → ℕ };

    fn weigh(self) -> u64
        ensures { result ≡ weight self };
}

// Its number and its place, and not its context.
impl Weighed for Fault {
    ghost weight = { fault_weight };

    fn weigh(self) -> u64 {
        u64::from(self.reason.number()) + u64::from(self.line) + u64::from(self.column)
    }
}

// Takes all that waits, and adds it to the number.
pub fn take_all<T: Weighed>(queue: &mut Queue<'_, T>, before: u64) -> u64
    ensures value { result ≡ (before + sum_by T.weight (waiting queue.old)) % 2 ^ 64 }
    ensures emptied { waiting queue.new ≡ [] }
    ensures places { SamePlaces queue.old queue.new }
{
    let mut sum = before;
    while let Some(x) = queue.take() {
        sum = sum.wrapping_add(x.weigh());
    }
    sum
}
