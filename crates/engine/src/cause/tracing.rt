// The way back from an end to the start, and the chain in order.
ghost use Rattle.std.specs.Prelude.{◌≡◌, ◌≤◌, map, reverse, length, take};
ghost use Rattle.engine.specs.search.Scenes.{waiting, On, Keeps, LeadsBack, LedBack, FindsChain};
ghost use Rattle.engine.specs.search.Traces.{some_position};

use crate::cause::searching::Search;
use crate::links::Link;
use colours::{Position, Reason};

impl<'s, 'l, 'r> Search<'s, 'l, 'r> {
    // Follows the chain list back from a position to the start, and puts the positions on the way into the queue.
    fn trace(&mut self, start: Position, end: Position)
        requires { LeadsBack self.old start end }
        ensures traced { LedBack self.old start end self.new }
        ensures chain { self.new.chain.now ≡ self.old.chain.now }
        ensures keeps { Keeps self.old self.new }
    {
        self.links.clear();
        let mut at = end;
        'back: while at != start {
            let from = self.before(at).unwrap();
            self.push(Link { at, from });
            at = from;
        }
        self.push(Link {
            at: start,
            from: start,
        });
    }

    // Writes the positions in the queue into the first places of the chain list, the last first, and
    // answers how many.
    fn write(&mut self) -> usize
        requires { length (waiting self.old) ≤ length self.old.chain.now }
        ensures count { result ≡ length (waiting self.old) }
        ensures written { take result self.new.chain.now ≡ map some_position (reverse (waiting self.old)) }
        ensures keeps { Keeps self.old self.new }
    {
        let count = self.links.len();
        while let Some(link) = self.links.pop() {
            // The place after those that still wait.
            let place = self.links.len();
            self.chain[place] = Some(link.at);
        }
        count
    }

    // Seeks a chain from a position, and writes it into the first places of the chain list.
    pub(crate) fn chain_from(&mut self, start: Position) -> Option<(Reason, usize)>
        requires { On self.old.scene start }
        ensures found { FindsChain self.old start self.new result }
        ensures keeps { Keeps self.old self.new }
    {
        let (end, reason) = self.run(start)?;
        self.trace(start, end);
        Some((reason, self.write()))
    }
}
