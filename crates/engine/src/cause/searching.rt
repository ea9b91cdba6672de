// A search from a position through the undecided positions that may follow, breadth first.
ghost use Rattle.std.specs.Prelude.{◌≤◌, length};
ghost use Rattle.systems.specs.Written.{table_model};
ghost use Rattle.rules.specs.Rules.{clause_list};
ghost use Rattle.colours.specs.Boards.{positions};
ghost use Rattle.queue.specs.Held.{room};

use crate::cause::looking::{Finding, Lookout};
use crate::cause::scene::Scene;
use crate::links::Link;
use colours::{Position, Reason};
use queue::Ring;
use systems::System;

// A search with its workspaces, which have a place for each position: the queue of what was seen and
// not yet looked from, and the chain list, which tells of each position seen the one before it. Both
// are lent, since a search must not fail for want of memory.
#[derive(Drop)]
pub(crate) struct Search<'s, 'l, 'r> {
    pub(crate) scene: Scene<'s>,
    pub(crate) links: &'l mut Ring<'r, Link>,
    pub(crate) chain: &'l mut [Option<Position>],
    ghost links_fit: { positions (table_model scene.table.now) (clause_list scene.rule.now) ≤ room links.now },
    ghost chain_fits: { positions (table_model scene.table.now) (clause_list scene.rule.now) ≤ length chain.now },
}

impl<'s, 'l, 'r> Search<'s, 'l, 'r> {
    ghost use Rattle.std.specs.Prelude.{◌≡◌, ◌<◌, [], ◌∷◌, ◌++◌};
    ghost use Rattle.engine.specs.search.Scenes.{graph_of, waiting, seen_by, On, OnFound, Keeps, HasRoom, HasRoomFor, SameSum, Sees, Follows, Takes, Spreads, Ends};

    // One link more, where there is room.
    pub(crate) fn push(&mut self, link: Link)
        requires { length (waiting self.old) < room self.old.links.now }
        ensures held { waiting self.new ≡ waiting self.old ++ link ∷ [] }
        ensures chain { self.new.chain.now ≡ self.old.chain.now }
        ensures keeps { Keeps self.old self.new }
    {
        self.links.push(link).unwrap();
    }

    // What the chain list tells of a position: the one before it, if it was seen.
    pub(crate) fn before(&self, at: Position) -> Option<Position>
        requires { On self.now.scene at }
        ensures { result ≡ seen_by self.now at }
    {
        self.chain[self.scene.place(at)]
    }

    // Puts a position that was not seen yet into the chain list, with the one before it, and into the queue.
    fn see(&mut self, link: Link)
        requires low { On self.old.scene link.at }
        requires space { HasRoomFor self.old link.at }
        ensures saw { Sees self.old link self.new }
        ensures keeps { Keeps self.old self.new }
    {
        if self.before(link.at).is_none() {
            let scene = self.scene;
            self.chain[scene.place(link.at)] = Some(link.from);
            self.push(link);
        }
    }

    // Follows what a look from a position showed: an end is answered, a position is seen.
    fn follow(&mut self, from: Position, finding: Option<Finding>) -> Option<Reason>
        requires on { OnFound self.old.scene finding }
        requires room { HasRoom self.old }
        ensures followed { Follows self.old from finding self.new result }
        ensures sum { SameSum self.old self.new }
        ensures keeps { Keeps self.old self.new }
    {
        match finding? {
            Finding::End(reason) => Some(reason),
            Finding::Next(at) => {
                self.see(Link { at, from });
                None
            }
        }
    }

    // Takes the looks at the group of a position itself, up to one that shows an end. A loop here and
    // below: of a search that a closure of `find_map` changes, nothing is known after the call.
    fn spread_here(&mut self, from: Position) -> Option<Reason>
        requires low { On self.old.scene from }
        requires room { HasRoom self.old }
        ensures taken { Takes self.old from 0 2 self.new result }
        ensures sum { SameSum self.old self.new }
        ensures keeps { Keeps self.old self.new }
    {
        let scene = self.scene;
        let lookout = Lookout { scene, at: from };
        for finding in lookout.look_here() {
            if let Some(reason) = self.follow(from, finding) {
                return Some(reason);
            }
        }
        None
    }

    // Takes the looks from a position across the steps to the groups, if a clause is sought there, up to
    // one that shows an end.
    fn spread_across(&mut self, from: Position) -> Option<Reason>
        requires low { On self.old.scene from }
        requires room { HasRoom self.old }
        ensures taken { Takes self.old from 2 ((graph_of self.old.scene).looks from) self.new result }
        ensures sum { SameSum self.old self.new }
        ensures keeps { Keeps self.old self.new }
    {
        let scene = self.scene;
        let lookout = Lookout { scene, at: from };
        let clause = lookout.sought()?;
        for group in 0..scene.table.states() {
            let finding = lookout.look_across(Position { group, clause });
            if let Some(reason) = self.follow(from, finding) {
                return Some(reason);
            }
        }
        None
    }

    // Takes all looks from a position, up to one that shows an end; what may follow and was not seen yet
    // goes into the chain list and the queue.
    fn spread(&mut self, from: Position) -> Option<Reason>
        requires low { On self.old.scene from }
        requires room { HasRoom self.old }
        ensures spread { Spreads self.old from self.new result }
        ensures sum { SameSum self.old self.new }
        ensures keeps { Keeps self.old self.new }
    {
        match self.spread_here(from) {
            Some(reason) => Some(reason),
            None => self.spread_across(from),
        }
    }

    // Goes from a position through those that may follow to the first at which a chain may end. The
    // chain list tells of each position seen the one before it.
    pub(crate) fn run(&mut self, start: Position) -> Option<(Position, Reason)>
        requires { On self.old.scene start }
        ensures searched { Ends self.old start self.new result }
        ensures keeps { Keeps self.old self.new }
    {
        self.links.clear();
        self.chain.fill(None);
        self.see(Link {
            at: start,
            from: start,
        });
        while let Some(link) = self.links.pop() {
            if let Some(reason) = self.spread(link.at) {
                return Some((link.at, reason));
            }
        }
        None
    }
}
