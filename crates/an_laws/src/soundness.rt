ghost use Rattle.std.specs.Prelude.{IsTrue, List};
ghost use Rattle.an_state.specs.Entries.{after};
ghost use Rattle.an_state.specs.Sound.{is_sound};
ghost use Rattle.an_state.specs.State.{State, empty};
ghost use Rattle.an_machine.specs.Legal.{Accepts, Legal, Write, state_of};
ghost use Rattle.an_laws.specs.Events.{Event, IsLegal, state_at};

/// A law: the empty state is sound, each accepted write leads from a sound state to a sound one,
/// and so does every legal history. The state of a legal list of events is sound.
#[tactic(auto, using(crate::proofs::SoundLemmas::soundness))]
pub fn states_stay_sound()
    ensures begin { IsTrue (is_sound empty) }
    ensures stay { (s : State) (write : Write) → Accepts s write → IsTrue (is_sound s)
        → IsTrue (is_sound (after s write.entry)) }
    ensures every { (s : State) (writes : List Write) → Legal s writes → IsTrue (is_sound s)
        → IsTrue (is_sound (state_of s writes)) }
    ensures listed { (events : List Event) → IsLegal events
        → IsTrue (is_sound (state_at events)) }
{}
