ghost use Rattle.std.specs.Prelude.{◌≡◌, ℕ, List, Option, bytes_eq, count_by};
ghost use Rattle.an_base.specs.Totals.{capped, totals_of, with_prefix};
ghost use Rattle.an_base.specs.declared.span.TermTotal.{TermTotal};
ghost use Rattle.an_slots.specs.Places.{Rises};
ghost use Rattle.an_slots.specs.Rows.{AreCounted, Row, parts_in};
ghost use Rattle.an_slots.specs.Texts.{under};
ghost use Rattle.an_postings.specs.Postings.{Lists, count_in};
ghost use Rattle.an_postings.specs.Totals.{Climbs, told_from};
ghost use Rattle.an_postings.specs.Told.{Tells, number_in, number_of_term};

/// Of counts that stand for rows, what is found by a prefix is exactly the terms with the prefix
/// that occur on the manifest in the classes, and how often each does. There is one such list: the
/// totals of a list of terms, where each term is in that list as often as it occurs.
pub fn all_is_told()
    ensures told { (counts : Lists) (rows : List (Option Row))
        → AreCounted parts_in (count_in counts) rows
        → (manifest prefix : List ℕ) (classes : List ℕ) → Rises 0 classes
        → Climbs (under manifest counts)
        → Tells prefix (number_in manifest classes rows)
        (told_from prefix classes (under manifest counts)) }
    ensures one { (prefix : List ℕ) (number : List ℕ → ℕ) (told other : List TermTotal)
        → Tells prefix number told → Tells prefix number other → told ≡ other }
    ensures counted { (term : List ℕ) (words : List (List ℕ))
        → number_of_term term (totals_of words) ≡ capped (count_by (bytes_eq term) words) }
    ensures listed { (prefix : List ℕ) (number : List ℕ → ℕ) (terms : List (List ℕ))
        → ((term : List ℕ) → capped (number term) ≡ capped (count_by (bytes_eq term) terms))
        → Tells prefix number (totals_of (with_prefix prefix terms)) }
{}
