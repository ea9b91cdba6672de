// E(r V q), and with T and F exchanged A(r U q): the column falls from the right part. Each state notes
// a step that upholds its colour. A state whose colour fell waits in the queue until those that noted
// it have looked for another step; none is tried twice before the next fall.
ghost use Rattle.std.specs.Prelude.{◌≡◌, ℕ, ◌+◌, ◌*◌, ◌<◌, ◌≤◌, List, length, Decides};
ghost use Rattle.queue.specs.Held.{held, room};
ghost use Rattle.colouring.specs.passes.Columns.{Fits, column};
ghost use Rattle.colouring.specs.passes.Falling.{left_below, lower as lower_of, Within, Fallen};

use crate::columns::Columns;
use crate::notes::Note;
use crate::plain::copy_right;
use crate::truth::{rated, truth};
use queue::Ring;
use systems::{Colour, MAX_STATES, System};

// The clause's column falls. The queue has room for what waits and all that may yet have to.
#[derive(Drop)]
struct FallingColumn<'t, 'b, 'q> {
    columns: Columns<'t>,
    board: &'b mut [u8],
    queue: &'b mut Ring<'q, usize>,
    notes: [Note; MAX_STATES],
    ghost fits: { Fits columns board.now },
    ghost place: { length (held queue.now) + left_below columns board.now ≤ room queue.now },
}

// One colour lower in the order of truth, which the type does not have: a table from colours to colours.
fn lower(c: Colour) -> Colour
    ensures { result ≡ lower_of c }
{
    match c {
        Colour::T => Colour::Undecided,
        Colour::Undecided => Colour::F,
        Colour::F => Colour::F,
    }
}

// Whether v is no higher than w.
fn within(v: Colour, w: Colour) -> bool
    ensures { Decides result (Within v w) }
{
    truth(v) <= truth(w)
}

impl FallingColumn<'_, '_, '_> {
    ghost use Rattle.colouring.specs.passes.FallingColumns.{Same, Next, load, own, Upholds, FirstUpholding, AllTried, Looks, Falls, Rests};

    // The colour of a clause at a state; stands here and at rising columns for the reason told there.
    fn read(&self, clause: usize, state: usize) -> Colour
        requires clause { clause < self.now.columns.clauses }
        requires state { state < self.now.columns.states }
        ensures { result ≡ column self.now.columns self.now.board.now clause state }
    {
        self.columns.read(self.board, clause, state)
    }

    // The state that waits longest; it then waits no more.
    fn next(&mut self) -> Option<usize>
        ensures same { Same self.old self.new }
        ensures next { Next self.old self.new result }
        ensures notes { self.new.notes ≡ self.old.notes }
    {
        let position = self.queue.pop()?;
        Some(position / self.columns.clauses)
    }

    // Whether the step to u upholds the colour at s, which is `here`.
    fn upholds(&self, here: Colour, s: usize, u: usize) -> bool
        requires s { s < self.now.columns.states }
        requires u { u < self.now.columns.states }
        requires here { here ≡ own self.now s }
        ensures { Decides result (Upholds self.now s u) }
    {
        let step = rated(self.columns.table.step_or_absent(s, u));
        within(here, step) && within(here, self.read(self.columns.whole, u))
    }

    // The first state from `from` on to which a step upholds the colour at s, which is `here`.
    fn find(&self, here: Colour, s: usize, from: usize) -> Option<usize>
        requires s { s < self.now.columns.states }
        requires here { here ≡ own self.now s }
        ensures { FirstUpholding self.now s from result }
    {
        // up to the table's own number, by which each step's range is known
        (from..self.columns.table.states()).find(|u| self.upholds(here, s, *u))
    }

    // Looks whether something upholds the colour at s, and lowers it where nothing does.
    fn look(&mut self, s: usize)
        requires s { s < self.old.columns.states }
        requires tried { AllTried self.old }
        ensures same { Same self.old self.new }
        ensures looks { Looks self.old self.new s }
    {
        let Columns { left, whole, .. } = self.columns;
        let here = self.read(whole, s);
        if within(here, self.read(left, s)) {
            return;
        }
        let from = self.notes[s].tried;
        match self.find(here, s, from) {
            Some(u) => {
                self.notes[s] = Note {
                    witness: u,
                    tried: u,
                };
            }
            None => {
                self.columns.write(self.board, s, lower(here));
                self.queue.push(self.columns.position(s)).unwrap();
                self.notes[s] = Note {
                    witness: s,
                    tried: 0,
                };
            }
        }
    }

    // Looks at each state that noted t. A `for`: a turn may write the board, the queue and the notes.
    fn look_again(&mut self, t: usize)
        requires { (b₀ : List ℕ) × Falls self.old b₀ t 0 }
        ensures same { Same self.old self.new }
        ensures kept { (b₀ : List ℕ) → Falls self.old b₀ t 0 → Rests self.new b₀ }
        ensures load { load self.new ≤ load self.old }
    {
        for s in 0..self.columns.states {
            if self.notes[s].witness == t {
                self.look(s);
            }
        }
    }

    // Goes on until nothing waits.
    fn settle(&mut self)
        requires { (b₀ : List ℕ) × Rests self.old b₀ }
        ensures same { Same self.old self.new }
        ensures fallen { (b₀ : List ℕ) → Rests self.old b₀ → Fallen self.old.columns b₀ self.new.board.now }
    {
        while let Some(t) = self.next() {
            self.look_again(t);
        }
    }
}

// Writes at both levels the states from which a walk has the right part throughout and a last state
// with the left part or that stood earlier.
pub(crate) fn fall(columns: &Columns<'_>, board: &mut [u8], queue: &mut Ring<'_, usize>)
    requires fits { Fits columns.now board.old }
    requires place { 2 * columns.now.states ≤ room queue.old }
    ensures fallen { Fallen columns.now board.old board.new }
    ensures room { room queue.new ≡ room queue.old }
{
    queue.clear();
    copy_right(columns, board);
    let columns = *columns;
    let mut fall = FallingColumn {
        columns,
        board,
        queue,
        // every state is taken to rest on state 0, so that it is looked at
        notes: [Note {
            witness: 0,
            tried: 0,
        }; MAX_STATES],
    };
    fall.look_again(0);
    fall.settle();
}
