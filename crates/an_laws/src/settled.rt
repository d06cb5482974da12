ghost use Rattle.std.specs.Prelude.{◌≡◌, ℤ, Ok, Some, IsTrue};
ghost use Rattle.an_machine.specs.Step.{step};
ghost use Rattle.an_machine.specs.declared.command.Decided.{Decided};
ghost use Rattle.an_policy.specs.declared.who.Caller.{Caller};
ghost use Rattle.an_rows.specs.Changes.{is_settled};
ghost use Rattle.an_state.specs.State.{State};
ghost use Rattle.an_state.specs.declared.command.Command.{Command};
ghost use Rattle.an_state.specs.declared.entry.Entry.{Entry};

/// A law: of the rows that an accepted write puts at most the first is new.
#[tactic(auto, using(crate::proofs::AcceptedLemmas::accepted_entries))]
pub fn accepted_writes_are_settled()
    ensures settled { (s : State) (moment : ℤ) (caller : Caller) (command : Command)
        (decided : Decided) (entry : Entry) → step s moment caller command ≡ Ok decided
        → decided.entry ≡ Some entry → IsTrue (is_settled s entry) }
{}
