//! What happens at both connections of a row, and those who wait for it.
use std::sync::atomic::{AtomicBool, Ordering};
use std::thread::yield_now;

/// What may be waited for.
#[derive(Clone, Copy, PartialEq, Eq)]
pub enum Event {
    /// Bytes were written to the first link.
    FirstAnswered,
    /// Bytes were written to the second link.
    SecondAnswered,
    /// A commit was begun.
    CommitBegun,
}

/// How often one who waits looks, at most.
const TURNS: u32 = 10_000_000;

/// What has happened so far, and whether somebody waited in vain.
#[derive(Drop)]
pub struct Events {
    first_answered: AtomicBool,
    second_answered: AtomicBool,
    commit_begun: AtomicBool,
    missed: AtomicBool,
}

impl Events {
    /// Nothing has happened yet.
    pub fn new() -> Events {
        Events {
            first_answered: AtomicBool::new(false),
            second_answered: AtomicBool::new(false),
            commit_begun: AtomicBool::new(false),
            missed: AtomicBool::new(false),
        }
    }

    /// Tells that this has happened.
    pub fn tell(&self, event: Event) {
        self.flag(event).store(true, Ordering::SeqCst);
    }

    /// Returns once this has happened, at once where there is nothing to wait for. It gives up
    /// behind a number of turns, so that a row always ends, and then somebody waited in vain.
    pub fn wait_for(&self, event: Option<Event>) {
        let Some(event) = event else {
            return;
        };
        for _ in 0..TURNS {
            if self.flag(event).load(Ordering::SeqCst) {
                return;
            }
            yield_now();
        }
        self.missed.store(true, Ordering::SeqCst);
    }

    /// Whether somebody waited in vain.
    pub fn is_missed(&self) -> bool {
        self.missed.load(Ordering::SeqCst)
    }

    fn flag(&self, event: Event) -> &AtomicBool {
        match event {
            Event::FirstAnswered => &self.first_answered,
            Event::SecondAnswered => &self.second_answered,
            Event::CommitBegun => &self.commit_begun,
        }
    }
}
