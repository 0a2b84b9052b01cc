// Pairs: two games under one head.
ghost use Rattle.std.specs.Prelude.{◌≡◌, length, IfOk, Some, None, MatchResult, OnOk};
ghost use Rattle.game.specs.Refusals.{told};
ghost use Rattle.combine.specs.Join.{joined, join_refusal, ColoursJoined};
ghost use Rattle.games.specs.Pairs.{tells};
ghost use Rattle.games.specs.Seats.{IsSeat};
ghost use Rattle.combine.proofs.Pairings.{unrefused_lawful};

use crate::pair_fault::PairFault;
pub use crate::pair_fault::PairRefused;
use crate::seat::Seat;
use game::arena::{Game, MOST_POSITIONS};
use game::refusal::GivenBack;
use game::side::Side;

// Two games, which it owns, under a head that has a move to position `p` of the first and one to
// position `q` of the second. The head is position 0; the first game's positions follow, then the
// second's.
#[derive(Debug, Drop)]
pub struct Pair<A: Game, B: Game> {
    owner: Side,
    first: A,
    p: usize,
    second: B,
    q: usize,
    ghost unrefused: { join_refusal (length (A.Game.meaning first)) p (length (B.Game.meaning second)) q ≡ None },
}

// Why two games make no pair with a head that leads to `p` and `q`.
fn pair_fault<A: Game, B: Game>(first: &A, p: usize, second: &B, q: usize) -> Result<(), PairFault>
    ensures { told tells result ≡ join_refusal (length (A.Game.meaning first.now)) p (length (B.Game.meaning second.now)) q }
{
    let n = first.count();
    let m = second.count();
    if p >= n || q >= m {
        return Err(PairFault::Absent);
    }
    if 1 + n + m > MOST_POSITIONS {
        return Err(PairFault::Count);
    }
    Ok(())
}

impl<A: Game, B: Game> Pair<A, B> {
    // The pair, or the games again if one of the positions is not there or the positions are too many.
    // On accepted sheets the parts have their own games' colours, and the head has its owner's
    // exactly when one of the two positions has it.
    pub fn new(
        owner: Side,
        first: A,
        p: usize,
        second: B,
        q: usize,
    ) -> Result<Pair<A, B>, PairRefused<A, B>>
        ensures refusal { MatchResult result (λ _. join_refusal (length (A.Game.meaning first)) p (length (B.Game.meaning second)) q ≡ None) (λ e. join_refusal (length (A.Game.meaning first)) p (length (B.Game.meaning second)) q ≡ Some (tells e.refusal)) }
        ensures games { MatchResult result (λ g. (g.first ≡ first) × (g.second ≡ second)) (λ e. e.given ≡ (first, second)) }
        ensures meaning { IfOk result (λ g. joined g.owner (A.Game.meaning g.first) g.p (B.Game.meaning g.second) g.q ≡ joined owner (A.Game.meaning first) p (B.Game.meaning second) q) }
        ensures colours { OnOk result (ColoursJoined owner (A.Game.meaning first) p (B.Game.meaning second) q) }
    {
        match pair_fault(&first, p, &second, q) {
            Ok(()) => Ok(Pair {
                owner,
                first,
                p,
                second,
                q,
            }),
            Err(refusal) => Err(GivenBack {
                refusal,
                given: (first, second),
            }),
        }
    }

    // Where position `u` lies.
    fn seat(&self, u: usize) -> Seat
        ensures { IsSeat (length (A.Game.meaning self.now.first)) u result }
    {
        let n = self.first.count();
        if u == 0 {
            return Seat::Head;
        }
        if u - 1 < n {
            Seat::First(u - 1)
        } else {
            Seat::Second(u - 1 - n)
        }
    }

    // The two games.
    pub fn into_parts(self) -> (A, B)
        ensures { (result.0 ≡ self.first) × (result.1 ≡ self.second) }
    {
        let Pair {
            owner: _,
            first,
            p: _,
            second,
            q: _,
        } = self;
        (first, second)
    }
}

impl<A: Game, B: Game> Game for Pair<A, B> {
    ghost meaning = { λ s. joined s.owner (A.Game.meaning s.first) s.p (B.Game.meaning s.second) s.q };

    ghost bounded = { λ x. (unrefused_lawful x.owner _ x.p _ x.q x.unrefused (A.Game.lawful x.first) (B.Game.lawful x.second)).bounded };

    ghost monotone = { λ x. (unrefused_lawful x.owner _ x.p _ x.q x.unrefused (A.Game.lawful x.first) (B.Game.lawful x.second)).monotone };

    ghost keeps = { λ x. (unrefused_lawful x.owner _ x.p _ x.q x.unrefused (A.Game.lawful x.first) (B.Game.lawful x.second)).keeps_kind };

    fn count(&self) -> usize {
        1 + self.first.count() + self.second.count()
    }

    #[tactic(auto, using(crate::proofs::Seating::owner_answers))]
    fn owner(&self, u: usize) -> Option<Side> {
        match self.seat(u) {
            Seat::Head => Some(self.owner),
            Seat::First(v) => self.first.owner(v),
            Seat::Second(v) => self.second.owner(v),
        }
    }

    #[tactic(auto, using(crate::proofs::Seating::level_head))]
    fn level(&self, u: usize) -> Option<usize> {
        match self.seat(u) {
            Seat::Head => Some(0),
            Seat::First(v) => self.first.level(v).map(|level| 1 + level),
            Seat::Second(v) => self.second.level(v).map(|level| 1 + level),
        }
    }

    #[tactic(auto, using(crate::proofs::Seating::kind_answers))]
    fn kind(&self, u: usize) -> Option<Side> {
        match self.seat(u) {
            Seat::Head => Some(Side::Green),
            Seat::First(v) => self.first.kind(v),
            Seat::Second(v) => self.second.kind(v),
        }
    }

    #[tactic(auto, using(crate::proofs::Seating::degree_answers))]
    fn degree(&self, u: usize) -> Option<usize> {
        match self.seat(u) {
            Seat::Head => Some(2),
            Seat::First(v) => self.first.degree(v),
            Seat::Second(v) => self.second.degree(v),
        }
    }

    #[tactic(auto, using(crate::proofs::Seating::target_head))]
    fn target(&self, u: usize, k: usize) -> Option<usize> {
        let n = self.first.count();
        match self.seat(u) {
            Seat::Head => [1 + self.p, 1 + n + self.q].get(k).copied(),
            Seat::First(v) => self.first.target(v, k).map(|w| 1 + w),
            Seat::Second(v) => self.second.target(v, k).map(|w| 1 + n + w),
        }
    }
}
