//! What holds of all bytes that are cut into requests. Each law is the contract of a function that
//! does nothing.
ghost use Rattle.std.specs.Prelude.{◌≡◌, ℕ, ◌+◌, ◌≤◌, List, [], ◌∷◌, ◌++◌, length};
ghost use Rattle.an_http.specs.Fields.{body_limit};
ghost use Rattle.an_http.specs.Head.{head_limit};
ghost use Rattle.an_http.specs.Requests.{Begins, Cuts, Piece, Requests, Whole};
ghost use Rattle.an_http.specs.declared.request.Request.{Request};

/// A law: bytes begin with one piece alone, and are cut into requests in one way alone.
#[tactic(auto, using(crate::proofs::CutLemmas::one_cut))]
pub fn cuts_are_unique()
    ensures piece { (bytes : List ℕ) (one other : Piece)
        → Begins bytes one → Begins bytes other → one ≡ other }
    ensures requests { (bytes : List ℕ)
        (one other : List Request) (rest left : List ℕ) (piece end : Piece)
        → Requests bytes one rest piece → Requests bytes other left end
        → (one ≡ other) × (rest ≡ left) × (piece ≡ end) }
{}

/// A law: requests that are whole stay so with more bytes behind them, and go on with the next one.
#[tactic(auto, using(crate::proofs::CutLemmas::more_cuts))]
pub fn cuts_go_on()
    ensures more { (bytes more : List ℕ) (requests : List Request) (rest : List ℕ)
        → Cuts bytes requests rest → Cuts (bytes ++ more) requests (rest ++ more) }
    ensures next { (bytes : List ℕ)
        (requests : List Request) (held : List ℕ) (request : Request) (rest : List ℕ)
        → Cuts bytes requests held → Begins held (Whole request rest)
        → Cuts bytes (requests ++ request ∷ []) rest }
{}

/// A law: a request has a head and a body of no more bytes than they may have.
pub fn requests_are_short()
    ensures short { (bytes : List ℕ) (request : Request) (rest : List ℕ)
        → Begins bytes (Whole request rest)
        → (length bytes ≤ length rest + (head_limit + body_limit))
        × (length request.body ≤ body_limit) }
{}
