ghost use Rattle.std.specs.Prelude.{◌≡◌, ℤ, IsTrue, List};
ghost use Rattle.an_policy.specs.declared.who.Caller.{Caller};
ghost use Rattle.an_laws.specs.Isolation.{IsUnseen, AreUnseen, LookAlike};
ghost use Rattle.an_laws.specs.Isolation.{answer_of, is_note, leaves_caller};
ghost use Rattle.an_state.specs.View.{view_by};
ghost use Rattle.an_state.specs.Commands.{object_of};
ghost use Rattle.an_state.specs.Entries.{after};
ghost use Rattle.an_machine.specs.Legal.{Accepts, Legal, Write, state_of};
ghost use Rattle.an_state.specs.State.{State, manifests_are_distinct, notes_are_distinct};
ghost use Rattle.an_state.specs.State.{who_of};
ghost use Rattle.an_machine.specs.Step.{step};
ghost use Rattle.an_state.specs.declared.command.Command.{Command};

/// A law: an accepted write of whose activities (IIIF Change Discovery API 1.0) a caller sees none,
/// and that changes no reader's row that is the caller's, leaves the caller's whole view as it was,
/// and so does every legal history of such writes: by what it reads the caller can't tell whether
/// they were made. No two annotations may have one owner and name, as in every sound state, since
/// the deletion of a manifest puts tombstones under those of the annotations on it.
#[tactic(auto, using(crate::proofs::UnseenLemmas::unseen))]
pub fn unseen_writes_change_no_view()
    ensures same_caller { (s : State) (write : Write) (caller : Caller) → Accepts s write
        → IsTrue (leaves_caller s caller write.entry)
        → who_of (after s write.entry) caller ≡ who_of s caller }
    ensures same_view { (s : State) (write : Write) (caller : Caller)
        → IsTrue (notes_are_distinct s) → Accepts s write → IsUnseen s caller write.entry
        → who_of (after s write.entry) caller ≡ who_of s caller
        → view_by (after s write.entry) caller ≡ view_by s caller }
    ensures every { (s : State) (writes : List Write) (caller : Caller)
        → IsTrue (notes_are_distinct s) → Legal s writes → AreUnseen s caller writes
        → view_by (state_of s writes) caller ≡ view_by s caller }
{}

/// A law: what a caller is told of its write of an annotation, the reply or the refusal, depends on
/// what the caller may read and on the rows of its own annotations, tombstones too, and on nothing
/// else: not on what others have, and not on the moment. No two manifests may have one name, as in
/// every sound state, since an annotation's manifest is found by its name.
#[tactic(auto, using(crate::proofs::AnswerLemmas::answers))]
pub fn own_writes_depend_on_the_view()
    ensures same_answer { (s t : State) (moment other : ℤ) (caller : Caller) (command : Command)
        → IsTrue (manifests_are_distinct s) → IsTrue (manifests_are_distinct t)
        → LookAlike s t caller → IsTrue (is_note (object_of command))
        → answer_of (step s moment caller command) ≡ answer_of (step t other caller command) }
{}
