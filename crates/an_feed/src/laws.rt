ghost use Rattle.std.specs.Prelude.{◌≡◌, ℕ, Bool, Some, List, [], map};
ghost use Rattle.std.specs.List.{All};
ghost use Rattle.an_keyed.specs.Key.{Key};
ghost use Rattle.an_state.specs.declared.activity.Seen.{Seen};
ghost use Rattle.an_harvest.specs.Live.{live_at};
ghost use Rattle.an_harvest.specs.Walk.{ComesTo, Walk, walk};
ghost use Rattle.an_list.specs.Site.{Site};
ghost use Rattle.an_state.specs.View.{View};
ghost use Rattle.an_feed.specs.Served.{HasAll, IsServed, Serves};
ghost use Rattle.an_feed.specs.Told.{IsNamed, IsTold, change_told, iri_of, lives, object_of_key};

use an_harvest::Fetch;

/// A law: what lives after all changes of a view has a manifest or an annotation exactly where the
/// last change of it in the view makes it or changes it, as IRIs tell objects apart; and nothing
/// that has no such IRI.
#[tactic(auto, using(crate::proofs::IriLemmas::found))]
pub fn harvests_have_what_is_told()
    ensures told { (base : List ℕ) (key : Key) (seen : List Seen)
        → IsNamed (object_of_key key) → All IsTold seen
        → live_at [] (map (change_told base) seen) (iri_of base (object_of_key key))
        ≡ lives key seen }
    ensures only { (base id : List ℕ) (seen : List Seen) (manifest : Bool) → All IsTold seen
        → live_at [] (map (change_told base) seen) id ≡ Some manifest
        → (key : Key) × IsNamed (object_of_key key) × (iri_of base (object_of_key key) ≡ id) }
{}

/// A law: over a fetch that gets the stream of a view and its pages as they are served no walk
/// stops, and one that ends has every change of the view after those that are known.
pub fn served_streams_are_harvested<F: Fetch>(_fetch: &F)
    ensures harvested { (site : Site) (view : View) (known : ℕ) → IsServed site view known
        → Serves site view (F.answers _fetch.now)
        → (outcome : Walk) → ComesTo (F.answers _fetch.now) (walk site.base known) outcome
        → HasAll site.base view.seen known outcome }
{}
