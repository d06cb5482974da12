ghost use Rattle.std.specs.Prelude.{◌≡◌, List, Ok, IsTrue};
ghost use Rattle.an_state.specs.Commands.{is_write};
ghost use Rattle.an_state.specs.Entries.{after};
ghost use Rattle.an_state.specs.Sound.{is_sound};
ghost use Rattle.an_state.specs.State.{State};
ghost use Rattle.an_rows.specs.Cells as rows;
ghost use Rattle.an_rows.specs.Valid.{is_valid};
ghost use Rattle.an_machine.specs.Legal.{Accepts, AreWrites, Legal, Write, state_of};

/// A law: each accepted write that may be sent leads from a valid and sound state to a valid one,
/// and so does every legal history of such writes.
#[tactic(auto, using(crate::proofs::ValidStepLemmas::validity))]
pub fn states_stay_valid()
    ensures stay { (s : State) (write : Write) → Accepts s write
        → IsTrue (is_write write.moment write.command) → IsTrue (is_sound s) → IsTrue (is_valid s)
        → IsTrue (is_valid (after s write.entry)) }
    ensures every { (s : State) (writes : List Write) → Legal s writes → AreWrites writes
        → IsTrue (is_sound s) → IsTrue (is_valid s)
        → IsTrue (is_valid (state_of s writes)) }
{}

/// A law: behind every legal history of writes that may be sent, from a valid and sound state, the
/// cells of the state stand for it. A state that was opened from cells is such a one.
#[tactic(auto, using(crate::proofs::ValidStepLemmas::validity))]
pub fn histories_are_kept()
    ensures kept { (s : State) (writes : List Write) → Legal s writes → AreWrites writes
        → IsTrue (is_sound s) → IsTrue (is_valid s)
        → rows.state_of (rows.cells (state_of s writes)) ≡ Ok (state_of s writes) }
{}
