//! What holds of every answer and of every harvest. Each law is the contract of a function that
//! does nothing.
ghost use Rattle.std.specs.Prelude.{◌≡◌, ℕ, Bool, IsTrue, List, None, Some, is_none};
ghost use Rattle.std.specs.Prelude.{if◌then◌else◌};
ghost use Rattle.an_base.specs.declared.span.Prefer.{Prefer};
ghost use Rattle.an_feed.specs.Told.{IsNamed, iri_of, object_of_key};
ghost use Rattle.an_harvest.specs.Live.{object_at};
ghost use Rattle.an_harvest.specs.declared.known.KnownObject.{KnownObject};
ghost use Rattle.an_http.specs.declared.request.Request.{Request};
ghost use Rattle.an_keyed.specs.Key.{Key};
ghost use Rattle.an_laws.specs.Coherent.{Coherent, is_in_view};
ghost use Rattle.an_policy.specs.Audience.{Identity};
ghost use Rattle.an_policy.specs.declared.who.Caller.{Caller};
ghost use Rattle.an_state.specs.State.{State};
ghost use Rattle.an_rows.specs.Valid.{is_valid};
ghost use Rattle.an_state.specs.View.{view_by, view_of};
ghost use Rattle.an_list.specs.Site.{Site};
ghost use Rattle.an_routes.specs.declared.kinds.Read.{Read};
ghost use Rattle.an_answers.specs.Cost.{cost_of};
ghost use Rattle.an_answers.specs.Isolation.{SeesAlike};
ghost use Rattle.an_lines.specs.Asked.{asked_of};
ghost use Rattle.an_lines.specs.Find.{turn_of};
ghost use Rattle.an_lines.specs.Harvest.{AreHarvested};
ghost use Rattle.an_lines.specs.Isolation.{ReaderSeesAlike};
ghost use Rattle.an_serve.specs.Isolation.{SenderSeesAlike};
ghost use Rattle.an_serve.specs.Respond.{response_of};

/// A law: in two states of which a caller has one view, the caller is answered alike. A request
/// has the same reply in both, unless the machine is asked to write, and then it is asked the same;
/// a line that reads prints the same. A read takes as many steps in both.
#[tactic(auto, using(crate::proofs::Isolation::alike))]
pub fn equal_views_are_answered_alike()
    ensures requests { (site : Site) (s t : State) (request : Request)
        → SenderSeesAlike s t request → response_of site s request ≡ response_of site t request }
    ensures lines { (site : Site) (s t : State) (line : List ℕ)
        → ReaderSeesAlike s t (asked_of line) → turn_of site s line ≡ turn_of site t line }
    ensures steps { (site : Site) (s t : State) (caller : Caller) (prefer : Prefer) (read : Read)
        → SeesAlike s t caller → cost_of site (view_by s caller) prefer read
        ≡ cost_of site (view_by t caller) prefer read }
{}

/// A law: in a valid and coherent state a harvest of what a caller sees has exactly the manifests
/// and the annotations of its view, each by its IRI.
#[tactic(auto, using(crate::proofs::HarvestLemmas::viewed))]
pub fn harvests_are_views()
    ensures has { (site : Site) (s : State) (who : Identity) (key : Key)
        (objects : List KnownObject) → IsTrue (is_valid s) → Coherent s
        → IsNamed (object_of_key key) → AreHarvested site (view_of s who) objects
        → object_at objects (iri_of site.base (object_of_key key))
        ≡ (if is_in_view (view_of s who) key then Some (is_none key.owner) else None) }
    ensures only { (site : Site) (s : State) (who : Identity) (id : List ℕ) (manifest : Bool)
        (objects : List KnownObject) → IsTrue (is_valid s) → Coherent s
        → AreHarvested site (view_of s who) objects → object_at objects id ≡ Some manifest
        → (key : Key) × IsNamed (object_of_key key)
        × (iri_of site.base (object_of_key key) ≡ id)
        × IsTrue (is_in_view (view_of s who) key) × (manifest ≡ is_none key.owner) }
{}
