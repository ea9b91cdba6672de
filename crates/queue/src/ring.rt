// A first-in first-out queue over a lent slice.
ghost use Rattle.std.specs.Prelude.{◌-◌, ◌≤◌, length};

mod methods;

use std::marker::Model;

// `len` elements stand from place `head` on, going round at the end of the slice. The slice is lent,
// since a call that takes a queue must not fail for want of memory. Who is lent a queue says that its room is as
// before: another could be put in its place, so the type does not say it.
#[derive(Drop)]
pub struct Ring<'a, T> {
    slots: &'a mut [T],
    head: usize,
    len: usize,
    ghost fits: { len ≤ length slots.now },
    ghost starts: { head ≤ length slots.now - 1 },
}

// Clauses see what waits, the oldest first, and how many places are free; and how that lies in the lent slice,
// since a refused call leaves the slots as they were too.
impl<'a, T> Model for Ring<'a, T> {
    ghost use Rattle.std.specs.Prelude.{◌-◌, length};
    ghost use Rattle.queue.specs.Waiting.{Waiting, waiting_code, round, lies_round};

    ghost Value = { Waiting T };

    ghost coded = { waiting_code T.code };

    ghost view = { λ r. record { held = round r.slots.now r.head r.len; free = length r.slots.now - r.len; lent = r.slots; head = r.head; lies = lies_round r.slots.now r.head r.len r.fits r.starts } };
}
