// E(r U q), and with T and F exchanged A(r V q): the column rises from F. A state whose colour rose
// waits in the queue until all that have a step to it are raised by what it passes on.
ghost use Rattle.std.specs.Prelude.{◌≡◌, ℕ, ◌+◌, ◌*◌, ◌<◌, ◌≤◌, List, length};
ghost use Rattle.queue.specs.Held.{held, room};
ghost use Rattle.colouring.specs.passes.Columns.{Fits, column};
ghost use Rattle.colouring.specs.passes.Rising.{left_above, Risen};

use crate::columns::Columns;
use crate::plain::fill;
use crate::truth::{join, meet, rated};
use queue::Ring;
use systems::{Colour, System};

// The clause's column rises. The queue has room for what waits and all that may yet have to.
#[derive(Drop)]
struct RisingColumn<'t, 'b, 'q> {
    columns: Columns<'t>,
    board: &'b mut [u8],
    queue: &'b mut Ring<'q, usize>,
    ghost fits: { Fits columns board.now },
    ghost place: { length (held queue.now) + left_above columns board.now ≤ room queue.now },
}

impl RisingColumn<'_, '_, '_> {
    ghost use Rattle.colouring.specs.passes.RisingColumns.{Same, Next, load, Lifts, gain, Starts, Rises, Rests};

    // The colour of a clause at a state. This and `next` stand at falling columns too: a struct for what
    // both hold would be a field that holds a `&mut`, whose use the borrow checker does not cover.
    fn read(&self, clause: usize, state: usize) -> Colour
        requires clause { clause < self.now.columns.clauses }
        requires state { state < self.now.columns.states }
        ensures { result ≡ column self.now.columns self.now.board.now clause state }
    {
        self.columns.read(self.board, clause, state)
    }

    // The state that waits longest; it then waits no more.
    fn next(&mut self) -> Option<usize>
        ensures same { Same self.old self.new }
        ensures next { Next self.old self.new result }
    {
        let position = self.queue.pop()?;
        Some(position / self.columns.clauses)
    }

    // Raises the clause's colour at a state by v; where that changes it, the state waits.
    fn raise(&mut self, s: usize, v: Colour)
        requires { s < self.old.columns.states }
        ensures same { Same self.old self.new }
        ensures lifts { Lifts self.old self.new s v }
    {
        let whole = self.columns.whole;
        let old = self.read(whole, s);
        let new = join(old, v);
        if new != old {
            self.columns.write(self.board, s, new);
            self.queue.push(self.columns.position(s)).unwrap();
        }
    }

    // Raises a state by what t passes on to it, if there may be a step.
    fn pass_on(&mut self, s: usize, t: usize)
        requires s { s < self.old.columns.states }
        requires t { t < self.old.columns.states }
        ensures same { Same self.old self.new }
        ensures lifts { Lifts self.old self.new s (gain self.old s t) }
    {
        let step = rated(self.columns.table.step_or_absent(s, t));
        if step == Colour::F {
            return;
        }
        let Columns { left, whole, .. } = self.columns;
        let there = self.read(whole, t);
        let here = self.read(left, s);
        let across = meet(step, there);
        let gain = meet(here, across);
        self.raise(s, gain);
    }

    // Raises each state by what t passes on to it. A `for`, here and in `seed`: a turn may write the board and
    // the queue.
    fn look_back(&mut self, t: usize)
        requires { t < self.old.columns.states }
        ensures same { Same self.old self.new }
        ensures kept { (b₀ : List ℕ) → Rises self.old b₀ t 0 → Rests self.new b₀ }
        ensures load { load self.new ≤ load self.old }
    {
        for s in 0..self.columns.states {
            self.pass_on(s, t);
        }
    }

    // Raises each state by the right part.
    fn seed(&mut self)
        ensures same { Same self.old self.new }
        ensures kept { (b₀ : List ℕ) → Starts self.old b₀ 0 → Rests self.new b₀ }
    {
        let right = self.columns.right;
        for s in 0..self.columns.states {
            let here = self.read(right, s);
            self.raise(s, here);
        }
    }

    // Goes on until nothing waits.
    fn spread(&mut self)
        requires { (b₀ : List ℕ) × Rests self.old b₀ }
        ensures same { Same self.old self.new }
        ensures risen { (b₀ : List ℕ) → Rests self.old b₀ → Risen self.old.columns b₀ self.new.board.now }
    {
        while let Some(t) = self.next() {
            self.look_back(t);
        }
    }
}

// Writes at both levels the states from which a walk has the right part at its last state and the left
// part before.
pub(crate) fn rise(columns: &Columns<'_>, board: &mut [u8], queue: &mut Ring<'_, usize>)
    requires fits { Fits columns.now board.old }
    requires place { 2 * columns.now.states ≤ room queue.old }
    ensures risen { Risen columns.now board.old board.new }
    ensures room { room queue.new ≡ room queue.old }
{
    queue.clear();
    fill(columns, board, Colour::F);
    let columns = *columns;
    let mut rise = RisingColumn {
        columns,
        board,
        queue,
    };
    rise.seed();
    rise.spread();
}
