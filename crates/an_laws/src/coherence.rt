ghost use Rattle.std.specs.Prelude.{◌≡◌, IsTrue, List};
ghost use Rattle.an_keyed.specs.Key.{Key};
ghost use Rattle.an_state.specs.Entries.{after};
ghost use Rattle.an_state.specs.Sound.{is_sound};
ghost use Rattle.an_state.specs.State.{State, empty};
ghost use Rattle.an_state.specs.View.{view_of};
ghost use Rattle.an_policy.specs.Audience.{Identity};
ghost use Rattle.an_laws.specs.Coherent.{Coherent, is_in_view, is_told};
ghost use Rattle.an_machine.specs.Legal.{Accepts, Legal, Write, state_of};

/// A law: the empty state is coherent, each accepted write leads from a sound and coherent state to
/// a coherent one, and so does every legal history.
#[tactic(auto, using(crate::proofs::CoherentLemmas::coherence))]
pub fn states_stay_coherent()
    ensures begin { Coherent empty }
    ensures stay { (s : State) (write : Write) → Accepts s write → IsTrue (is_sound s) → Coherent s
        → Coherent (after s write.entry) }
    ensures every { (s : State) (writes : List Write) → Legal s writes → IsTrue (is_sound s)
        → Coherent s → Coherent (state_of s writes) }
{}

/// A law: in a coherent state, and so behind every legal history from a sound and coherent state, a
/// manifest or an annotation is in a caller's view exactly where the last change of it that the
/// caller sees makes it or changes it (IIIF Change Discovery 1.0).
#[tactic(auto, using(crate::proofs::ToldLemmas::told))]
pub fn views_are_told()
    ensures told { (s : State) (who : Identity) (key : Key) → Coherent s
        → is_in_view (view_of s who) key ≡ is_told (view_of s who).seen key }
    ensures every { (s : State) (writes : List Write) (who : Identity) (key : Key)
        → Legal s writes → IsTrue (is_sound s) → Coherent s
        → is_in_view (view_of (state_of s writes) who) key
        ≡ is_told (view_of (state_of s writes) who).seen key }
{}
