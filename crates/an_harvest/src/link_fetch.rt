ghost use Rattle.std.specs.Prelude.{◌≡◌, ◌≤◌, ◌↔◌, ℕ, ⊤, List, Err, IfOk};
ghost use Rattle.an_base.specs.Faults.{Rises};
ghost use Rattle.an_harvest.specs.declared.fetch.Got.{Got};

use crate::fetch::{Fetch, FetchError, Got};
use crate::reply::{GetError, get_reply};
use an_base::{Bytes, Text};
use an_world::Link;
use std::alloc::Global;
use std::marker::Model;

/// A fetch over a link, with a token where there is one. Of what it gets it reveals nothing.
/// Contracts see its count of faults.
#[derive(Drop)]
pub struct LinkFetch<L: Link> {
    link: L,
    token: Option<Text>,
    held: Bytes,
    faults: u64,
}

impl<L: Link> Model for LinkFetch<L> {
    ghost use Rattle.std.specs.Prelude.{ℕ};

    ghost Value = { ℕ };

    ghost view = { λ f. f.faults };
}

impl<L: Link> LinkFetch<L> {
    /// Takes no memory.
    pub fn new(alloc: Global, link: L, token: Option<Text>) -> LinkFetch<L>
        ensures start { result ≡ 0 }
    {
        LinkFetch {
            link,
            token,
            held: Bytes::from_vec(Vec::new(alloc)),
            faults: 0,
        }
    }
}

impl<L: Link> Fetch for LinkFetch<L> {
    ghost use Rattle.std.specs.Prelude.{⊤};

    ghost answers = { λ _ _ _. ⊤ };

    ghost faults = { λ fetch. fetch };

    /// A fault is counted exactly where the link failed or the reply is refused.
    fn get(&mut self, alloc: Global, target: &str) -> Result<Got, FetchError>
        ensures answer { IfOk result (λ _. ⊤) }
        ensures same { (other : List ℕ) (got : Got) → ⊤ ↔ ⊤ }
        ensures fault { result ≡ Err FetchError.Failed → Rises self.old self.new }
        ensures still { ¬ (result ≡ Err FetchError.Failed) → self.new ≡ self.old }
        ensures faults_kept { self.old ≤ self.new }
    {
        let token = match &self.token {
            Some(token) => Some(token.as_str()),
            None => None,
        };
        match get_reply(alloc, &mut self.link, &mut self.held, target, token) {
            Ok(got) => Ok(got),
            Err(GetError::Memory) => Err(FetchError::Memory),
            Err(_) => {
                self.faults = self.faults.saturating_add(1);
                Err(FetchError::Failed)
            }
        }
    }
}
