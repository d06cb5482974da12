ghost use Rattle.std.specs.Prelude.{◌≡◌, IfOk};
ghost use Rattle.an_harvest.specs.Fetched.{first_got};

use crate::fetch::{Fetch, FetchError, Got};
use an_base::{Bytes, Text};
use std::alloc::{AllocError, Global};
use std::marker::Model;

/// What is got for a target.
#[derive(Debug, Drop)]
pub struct FetchPair {
    pub target: Text,
    pub got: Got,
}

/// A fetch in memory: of its pairs the first with the target answers, and else a 404 without a
/// body. Contracts see its pairs and its count of faults.
#[derive(Debug, Drop)]
pub struct MapFetch {
    pairs: Vec<FetchPair>,
    fail: Vec<u64>,
    calls: u64,
    faults: u64,
}

impl Model for MapFetch {
    ghost use Rattle.an_harvest.specs.Fetched.{Fetched};

    ghost Value = { Fetched };

    ghost view = { λ m. record { pairs = m.pairs.items; faults = m.faults } };
}

impl MapFetch {
    /// The calls with the numbers of `fail` fail, counted from 1. Takes no memory.
    pub fn new(pairs: Vec<FetchPair>, fail: Vec<u64>) -> MapFetch
        ensures start { result ≡ record { pairs = pairs.items; faults = 0 } }
    {
        MapFetch {
            pairs,
            fail,
            calls: 0,
            faults: 0,
        }
    }
}

impl Fetch for MapFetch {
    ghost use Rattle.std.specs.Prelude.{◌≡◌};
    ghost use Rattle.an_harvest.specs.Fetched.{first_got};

    ghost answers = { λ m target got. got ≡ first_got m.pairs target };

    ghost faults = { λ m. m.faults };

    fn get(&mut self, alloc: Global, target: &str) -> Result<Got, FetchError> {
        self.calls = self.calls.saturating_add(1);
        if self.fail.contains(&self.calls) {
            self.faults = self.faults.saturating_add(1);
            return Err(FetchError::Failed);
        }
        match first_got(alloc, self.pairs.as_slice(), target) {
            Ok(got) => Ok(got),
            Err(_) => Err(FetchError::Memory),
        }
    }
}

fn first_got(alloc: Global, pairs: &[FetchPair], target: &str) -> Result<Got, AllocError>
    ensures { IfOk result (λ got. got ≡ first_got pairs.now target.now) }
{
    for pair in pairs {
        if pair.target.as_str() == target {
            return copy_of(alloc, &pair.got);
        }
    }
    Ok(Got {
        status: 404,
        body: Bytes::from_vec(Vec::new(alloc)),
    })
}

fn copy_of(alloc: Global, got: &Got) -> Result<Got, AllocError>
    ensures { IfOk result (λ copy. copy ≡ got.now) }
{
    Ok(Got {
        status: got.status,
        body: Bytes::new(alloc, got.body.as_slice())?,
    })
}
