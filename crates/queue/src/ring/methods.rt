// What a queue does, by the list that it holds and the room that it has.
ghost use Rattle.std.specs.Prelude.{◌≡◌, ◌+◌, ◌%◌, ◌<◌, ◌≤◌, [], length};
ghost use Rattle.queue.specs.Held.{room, Pushed, Popped};

use super::Ring;
use systems::Refusal;

// The place that lies so many places on, going round at the end. The sum of the two need not fit
// where the elements take no bytes, so it is made only before the end.
fn place_after(at: usize, steps: usize, places: usize) -> usize
    requires { (at < places) × (steps ≤ places) }
    ensures { result ≡ (at + steps) % places }
{
    let before = places - steps;
    if at < before { at + steps } else { at - before }
}

impl<'a, T: Copy> Ring<'a, T> {
    // An empty queue with a place for each element of the slice.
    pub fn new(slots: &'a mut [T]) -> Self
        ensures empty { result.held ≡ [] }
        ensures room { room result ≡ length slots.old }
    {
        Ring {
            slots,
            head: 0,
            len: 0,
        }
    }

    // How many places it has, filled or free.
    pub fn capacity(&self) -> usize
        ensures { result ≡ room self.now }
    {
        self.slots.len()
    }

    pub fn len(&self) -> usize
        ensures { result ≡ length self.now.held }
    {
        self.len
    }

    pub fn clear(&mut self)
        ensures empty { self.new.held ≡ [] }
        ensures room { room self.new ≡ room self.old }
    {
        self.head = 0;
        self.len = 0;
    }

    // Takes an element in, or refuses with 22 where no place is free.
    pub fn push(&mut self, element: T) -> Result<(), Refusal>
        ensures { Pushed self.old element self.new result }
    {
        let places = self.slots.len();
        if self.len >= places {
            return Err(Refusal::QueueFull);
        }
        self.slots[place_after(self.head, self.len, places)] = element;
        self.len += 1;
        Ok(())
    }

    // Gives the element back that came first.
    pub fn pop(&mut self) -> Option<T>
        ensures { Popped self.old self.new result }
    {
        if self.len == 0 {
            return None;
        }
        let first = self.slots[self.head];
        self.head = place_after(self.head, 1, self.slots.len());
        self.len -= 1;
        Some(first)
    }
}
