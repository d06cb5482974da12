ghost use Rattle.an_answers.specs.Untold.{AnsweredAlike, GroupsUntold};

/// A law: no answer reveals to whom else an annotation is shown. So, where each annotation has one
/// inner group, every caller is answered as from what it could read of the state before.
#[tactic(auto, using(crate::proofs::UntoldLemmas::untold_answers))]
pub fn inner_groups_are_untold()
    ensures untold { GroupsUntold }
    ensures alike { AnsweredAlike }
{}
