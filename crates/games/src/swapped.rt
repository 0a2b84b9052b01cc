// Swapped games: a game with the sides exchanged.
ghost use Rattle.std.specs.Prelude.{◌≡◌};
ghost use Rattle.combine.specs.Exchange.{exchanged, ColoursExchanged};
ghost use Rattle.combine.proofs.Exchanges.{exchanged_lawful};

use game::arena::Game;
use game::side::Side;

// A game with the sides exchanged in owner and kind alone. It owns the game.
#[derive(Debug, Drop)]
pub struct Swapped<G: Game> {
    game: G,
}

impl<G: Game> Swapped<G> {
    // The swapped game. On its accepted sheets each colour is the opposite of that on the game's.
    pub fn new(game: G) -> Swapped<G>
        ensures game { result.game ≡ game }
        ensures colours { ColoursExchanged (G.Game.meaning game) }
    {
        Swapped { game }
    }

    // The game whose sides are exchanged.
    pub fn into_inner(self) -> G
        ensures { result ≡ self.game }
    {
        let Swapped { game } = self;
        game
    }
}

#[tactic(auto, using(combine::proofs::Exchanges::exchanged_answers))]
impl<G: Game> Game for Swapped<G> {
    ghost meaning = { λ s. exchanged (G.Game.meaning s.game) };

    ghost bounded = { λ x. (exchanged_lawful _ (G.Game.lawful x.game)).bounded };

    ghost monotone = { λ x. (exchanged_lawful _ (G.Game.lawful x.game)).monotone };

    ghost keeps = { λ x. (exchanged_lawful _ (G.Game.lawful x.game)).keeps_kind };

    fn count(&self) -> usize {
        self.game.count()
    }

    fn owner(&self, p: usize) -> Option<Side> {
        self.game.owner(p).map(Side::other)
    }

    fn level(&self, p: usize) -> Option<usize> {
        self.game.level(p)
    }

    fn kind(&self, p: usize) -> Option<Side> {
        self.game.kind(p).map(Side::other)
    }

    fn degree(&self, p: usize) -> Option<usize> {
        self.game.degree(p)
    }

    fn target(&self, p: usize, k: usize) -> Option<usize> {
        self.game.target(p, k)
    }
}
