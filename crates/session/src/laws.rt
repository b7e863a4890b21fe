ghost use Rattle.session.specs.Laws.{SessionsInStep};

// A session that speaks has the turn, a refused one is as it was, and in its turn it is refused only for its string.
pub fn sessions_in_step()
    ensures { SessionsInStep }
{}
