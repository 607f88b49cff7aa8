//! Defines the meter, which counts the rounds of a partition refinement, and the visits (reads of transitions). A visit
//! is a call of `Lts::edge`, which reads one transition.
ghost use Rattle.std.specs.Prelude.{◌≡◌, ◌↔◌, IsTrue};
ghost use Rattle.lts.specs.Meter.{Counts, IsFresh, HasRoomFor, Costs};

use std::marker::Model;

/// Counts rounds of refinement and visits (reads of transitions). This trait has no function that creates a meter, and
/// no function that lowers a count. So code that is generic in the type of its meter cannot count with another meter,
/// and cannot reset the meter that it was given.
pub trait Meter: Drop {
    ghost counted: { Self → Counts };

    /// Returns the number of rounds that the meter has counted so far.
    fn rounds(&self) -> u128
        ensures { result ≡ (counted self.now).rounds };

    /// Returns the number of visits (reads of transitions) that the meter has counted so far.
    fn visits(&self) -> u128
        ensures { result ≡ (counted self.now).visits };

    /// Counts one more round.
    fn start_round(&mut self)
        requires { HasRoomFor (counted self.old) 1 0 }
        ensures { Costs (counted self.old) (counted self.new) 1 0 0 };

    /// Counts one more visit (read of a transition). `Lts::edge` calls this function for each transition that it
    /// returns.
    fn visit(&mut self)
        requires { HasRoomFor (counted self.old) 0 1 }
        ensures { Costs (counted self.old) (counted self.new) 0 1 1 };

    /// Returns whether the meter has counted no round and no visit (read of a transition) so far.
    fn is_fresh(&self) -> bool
        ensures { IsTrue result ↔ IsFresh (counted self.now) };

    /// Returns whether the meter can count `rounds` more rounds and `visits` more visits (reads of transitions) without
    /// overflow.
    fn has_room(&self, rounds: u128, visits: u128) -> bool
        ensures { IsTrue result ↔ HasRoomFor (counted self.now) rounds visits };
}

/// A meter that stores the number of rounds and the number of visits (reads of transitions) in 128 bits each.
#[derive(Drop)]
pub struct Counter {
    rounds: u128,
    visits: u128,
}

impl Model for Counter {
    ghost Value = { Counts };

    ghost view = { λ c. record { rounds = c.rounds; visits = c.visits } };
}

impl Counter {
    /// Returns a new meter, which has counted no round and no visit (read of a transition).
    pub fn new() -> Counter
        ensures { IsFresh result }
    {
        Counter {
            rounds: 0,
            visits: 0,
        }
    }
}

impl Meter for Counter {
    ghost counted = { λ c. c };

    fn rounds(&self) -> u128 {
        self.rounds
    }

    fn visits(&self) -> u128 {
        self.visits
    }

    fn start_round(&mut self) {
        self.rounds += 1;
    }

    fn visit(&mut self) {
        self.visits += 1;
    }

    fn is_fresh(&self) -> bool {
        self.rounds == 0 && self.visits == 0
    }

    fn has_room(&self, rounds: u128, visits: u128) -> bool {
        rounds <= u128::MAX - self.rounds && visits <= u128::MAX - self.visits
    }
}
