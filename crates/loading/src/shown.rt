ghost use Rattle.std.specs.Prelude.{◌≡◌, List, ℕ};
ghost use Rattle.terms.specs.declared.refusal.Refusal.{Refusal};
ghost use Rattle.terms.specs.Question.{Question, asked, unless};
ghost use Rattle.bearer.specs.declared.side.Side.{Side};
ghost use Rattle.bearer.specs.Meaning.{Meaning};

use bearer::Bearer;
use bearer::side::Side;
use terms::refusal::Refusal;

// A bearer, or a pile of codings on one, into whose lowest layer a raw string can be brought as a side's. The pile is taken apart
// for it and put together again, so it goes in and comes out by value.
pub trait Loads: Bearer {
    // The questions of a load.
    ghost load_asks: { Self → Side → List ℕ → List (Question Refusal) };

    // What the bearer means once the raw string is on its line.
    ghost load_means: { Self → Side → List ℕ → Meaning };

    fn load_raw(self, side: Side, raw: &[u8]) -> (Self, Result<(), Refusal>)
        ensures answer { result.1 ≡ asked (load_asks self side raw.now) }
        ensures after { Self.Bearer.meaning result.0 ≡ unless (load_asks self side raw.now) (load_means self side raw.now) (Self.Bearer.meaning self) };
}
