ghost use Rattle.std.specs.Prelude.{◌≡◌, ℕ, ℤ, IfErr, IfOk, IsTrue, List, ◌∷◌, ◌++◌};
ghost use Rattle.an_keep.specs.Keeper.{WhileTold};
ghost use Rattle.an_laws.specs.Numbers.{AddsNothing};
ghost use Rattle.an_machine.specs.Legal.{Legal, Write, state_of};
ghost use Rattle.an_machine.specs.Step.{step};
ghost use Rattle.an_policy.specs.declared.who.Caller.{Caller};
ghost use Rattle.an_state.specs.Sound.{is_sound};
ghost use Rattle.an_state.specs.State.{State};

use crate::desk::{Desk, NotOpened};
use crate::error::OpenError;
use an_keep::Keeper;
use std::alloc::Global;

/// Closes a store, and opens it again. While the keeper tells its cells, the store is what it was
/// before closing: it isn't damaged, its state is the same, and so is every caller's every answer,
/// which is a matter of the state. A command that was accepted before, by whatever writes led from
/// the state at an opening to this one, adds no entry after, whoever sends it and whenever.
#[tactic(auto, using(crate::proofs::ClosingLemmas::closing))]
pub fn reopen<K: Keeper>(alloc: Global, desk: Desk<K>) -> Result<Desk<K>, NotOpened<K>>
    ensures same { IfOk result (λ again. WhileTold desk.told again.told
        (again.state ≡ desk.state)) }
    ensures undamaged { (tab key : ℕ) → IfErr result (λ its. WhileTold desk.told
        (K.told its.keeper) (¬ (its.why ≡ OpenError.Damaged tab key))) }
    ensures sent_again { (s : State) (before behind : List Write) (write : Write)
        (moment : ℤ) (caller : Caller) → IsTrue (is_sound s)
        → Legal s (before ++ (write ∷ behind))
        → desk.state ≡ state_of s (before ++ (write ∷ behind))
        → IfOk result (λ again. WhileTold desk.told again.told
        (AddsNothing (step again.state moment caller write.command))) }
{
    Desk::open(alloc, desk.into_keeper())
}
