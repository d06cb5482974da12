ghost use Rattle.std.specs.Prelude.{◌≡◌, ℤ, ◌<◌, IsTrue, List, ◌∷◌, ◌++◌};
ghost use Rattle.an_policy.specs.declared.who.Caller.{Caller};
ghost use Rattle.an_state.specs.Commands.{object_of, version_of};
ghost use Rattle.an_state.specs.Sound.{is_sound};
ghost use Rattle.an_state.specs.State.{State};
ghost use Rattle.an_machine.specs.Step.{step};
ghost use Rattle.an_machine.specs.Legal.{Legal, Write, state_of};
ghost use Rattle.an_laws.specs.Numbers.{AddsNothing};

/// A law: in a legal history from a sound state, of two accepted writes on one object the later one
/// has the greater number. So no number of an object is accepted twice.
#[tactic(auto, using(crate::proofs::NumberLemmas::numbers))]
pub fn numbers_rise()
    ensures rise { (s : State) (before between behind : List Write) (earlier later : Write)
        → IsTrue (is_sound s)
        → Legal s (before ++ (earlier ∷ (between ++ (later ∷ behind))))
        → object_of earlier.command ≡ object_of later.command
        → version_of earlier.command < version_of later.command }
{}

/// A law: in a legal history from a sound state, an accepted command that is sent again later adds
/// no entry, whoever sends it and whenever.
#[tactic(auto, using(crate::proofs::NumberLemmas::numbers))]
pub fn sent_again_adds_nothing()
    ensures nothing { (s : State) (before behind : List Write) (write : Write)
        (moment : ℤ) (caller : Caller)
        → IsTrue (is_sound s)
        → Legal s (before ++ (write ∷ behind))
        → AddsNothing (step (state_of s (before ++ (write ∷ behind))) moment caller write.command) }
{}
