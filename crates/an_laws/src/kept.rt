ghost use Rattle.std.specs.Prelude.{IsSome, List};
ghost use Rattle.an_laws.specs.Events.{AreTold, Event, IsLegal, told_at};
ghost use Rattle.an_state.specs.State.{empty};

/// A law: where the keeper tells its cells behind the last event, it told them behind each, and
/// they were those of the state that the event led to. So each write that was accepted was kept
/// then.
#[tactic(auto, using(crate::proofs::KeptLemmas::writes_told))]
pub fn writes_are_kept()
    ensures kept { (events : List Event) → IsLegal events → IsSome (told_at events)
        → AreTold empty events }
{}
