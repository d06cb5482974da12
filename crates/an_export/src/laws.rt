ghost use Rattle.std.specs.Prelude.{◌≡◌, IsTrue, Some};
ghost use Rattle.an_policy.specs.Inner.{inner_named, inner_text, is_valid_inner};
ghost use Rattle.an_policy.specs.declared.inner.Inner.{Inner};

/// A law: the text of inner groups is read as those. So the line of an annotation puts it in the
/// groups that it had.
#[tactic(auto, using(crate::proofs::TextLemmas::groups_again))]
pub fn groups_are_put_again()
    ensures again { (inner : Inner) → IsTrue (is_valid_inner inner)
        → inner_named (inner_text inner) ≡ Some inner }
{}
