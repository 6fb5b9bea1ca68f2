ghost use Rattle.std.specs.Prelude.{◌≡◌, ◌↔◌, ◌≤◌, ◌-◌, IfSome, IsNone, OnSome, drop, length, map, take};
ghost use Rattle.world_traits.specs.Links.{FitsInto, Failed, answer_of};
ghost use Rattle.world_traits.specs.Plays.{next_answer, next_moves, some_bytes};

use crate::dialer::Received;
use crate::rest::Rest;
use std::alloc::Global;
use std::collections::VecDeque;
use std::marker::Model;

/// What a link of a `PlayDialer` does in one receive.
#[derive(Debug, Drop)]
pub enum Move {
    /// These bytes come, in parts where they don't find room at once. No bytes are Quiet.
    Bytes(Vec<u8>),
    /// Nothing comes.
    Quiet,
    /// The peer has closed the link.
    Closed,
    /// The receive fails, and the link is over.
    Fail,
}

/// A link of a `PlayDialer`: what it takes and what it plays.
#[derive(Debug, Drop)]
pub struct PlayLink {
    /// How many bytes it takes. After them each send fails.
    pub takes: u32,
    /// What its receives come to, in order. After them each receive is Quiet.
    pub moves: Vec<Move>,
}

/// What is left of a link that is up. Contracts see the bytes that are left of a move as a move.
#[derive(Debug, Drop)]
pub struct Play {
    takes: u32,
    part: Rest,
    moves: VecDeque<Move>,
}

impl Model for Play {
    ghost use Rattle.std.specs.Prelude.{map};
    ghost use Rattle.world_traits.specs.Plays.{Play as Record};

    ghost Value = { Record };

    ghost use Rattle.world_traits.specs.Plays.{answer_of_move, moves_with};

    ghost view = { λ p. record { takes = p.takes; moves = moves_with p.part (map answer_of_move p.moves.items) } };
}

impl Play {
    ghost use Rattle.world_traits.specs.Plays.{no_play, play_of};

    /// A link from its begin.
    pub fn new(alloc: Global, link: PlayLink) -> Self
        ensures { result ≡ play_of link }
    {
        Play {
            takes: link.takes,
            part: Rest::new(Vec::new(alloc)),
            moves: VecDeque::from(link.moves),
        }
    }

    /// A link that takes nothing and plays nothing.
    pub fn none(alloc: Global) -> Self
        ensures { result ≡ no_play }
    {
        Play {
            takes: 0,
            part: Rest::new(Vec::new(alloc)),
            moves: VecDeque::new(alloc),
        }
    }

    /// How many bytes it still takes.
    pub fn takes(&self) -> u32
        ensures { result ≡ self.now.takes }
    {
        self.takes
    }

    /// Takes so many bytes.
    pub fn take(&mut self, count: u32)
        requires { count ≤ self.old.takes }
        ensures { self.new ≡ record self.old { takes = self.old.takes - count } }
    {
        self.takes -= count;
    }

    /// Plays one receive into the front of `into`. None says that it is to fail.
    pub fn play(&mut self, into: &mut [u8]) -> Option<Received>
        ensures fails { IsNone result ↔ (next_answer 0 self.old.moves ≡ Failed) }
        ensures answer { IfSome result (λ got. answer_of into.new got ≡ next_answer (length into.old) self.old.moves) }
        ensures fits { IfSome result (FitsInto into.new) }
        ensures left { OnSome result (self.new ≡ record self.old { moves = next_moves (length into.old) self.old.moves }) }
    {
        if self.part.is_empty() {
            match self.moves.pop_front() {
                None | Some(Move::Quiet) => return Some(Received::Quiet),
                Some(Move::Closed) => return Some(Received::Closed),
                Some(Move::Fail) => return None,
                Some(Move::Bytes(bytes)) => self.part = Rest::new(bytes),
            }
        }
        Some(give(&mut self.part, into))
    }
}

/// Gives as many bytes as are left and find room, or is Quiet where there are none.
fn give(part: &mut Rest, into: &mut [u8]) -> Received
    ensures answer { answer_of into.new result ≡ some_bytes (take (length into.old) part.old) }
    ensures fits { FitsInto into.new result }
    ensures left { part.new ≡ drop (length into.old) part.old }
{
    match part.give(into) {
        0 => Received::Quiet,
        count => Received::Bytes(count),
    }
}
