//! What holds of all replies and all harvests. Each law is the contract of a function that does
//! nothing.
ghost use Rattle.std.specs.Prelude.{◌≡◌, ℕ, List, ◌++◌};
ghost use Rattle.an_harvest.specs.Feed.{Change};
ghost use Rattle.an_harvest.specs.Live.{IsLive};
ghost use Rattle.an_harvest.specs.Reply.{Begins, Piece, Whole};
ghost use Rattle.an_harvest.specs.declared.fetch.Got.{Got};
ghost use Rattle.an_harvest.specs.declared.known.KnownObject.{KnownObject};

/// A law: bytes begin with one piece only, so what is a reply is never refused; and a reply is the
/// same one with more bytes after it.
#[tactic(auto, using(crate::proofs::PieceLemmas::pieces))]
pub fn replies_are_unique()
    ensures unique { (bytes : List ℕ) (one other : Piece)
        → Begins bytes one → Begins bytes other → one ≡ other }
    ensures more { (bytes more : List ℕ) (got : Got) (rest : List ℕ)
        → Begins bytes (Whole got rest) → Begins (bytes ++ more) (Whole got (rest ++ more)) }
{}

/// A law: what lives after more changes, from what was found after the first ones, is what lives
/// after all of them. So a harvest from what a harvest found is a harvest of all.
pub fn harvests_go_on()
    ensures all { (known found last : List KnownObject) (first later : List Change)
        → IsLive known first found → IsLive found later last
        → IsLive known (first ++ later) last }
{}
