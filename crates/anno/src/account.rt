use crate::clock::second_now;
use std::sync::atomic::{AtomicU64, Ordering};

/// What the connections at a port came to so far, which all of them count, and the lines about that
/// on standard error. Only what is seen exactly from here is counted: a reply once the system has
/// taken it whole, and its status. No line takes memory, and one that can't be written is passed
/// over.
#[derive(Drop)]
pub struct Account {
    host: HostRuntime,
    closed: AtomicU64,
    replies: AtomicU64,
    memory: Refusals,
    keeper: Refusals,
}

impl Account {
    pub fn new(host: &HostRuntime) -> Account {
        Account {
            host: *host,
            closed: AtomicU64::new(0),
            replies: AtomicU64::new(0),
            memory: Refusals::new(),
            keeper: Refusals::new(),
        }
    }

    /// The second that it is.
    pub fn second(&self) -> u64 {
        second_now(&self.host)
    }

    /// Counts a connection that is closed.
    pub fn close(&self) {
        let _ = self.closed.fetch_add(1, Ordering::SeqCst);
    }

    /// Counts a reply, and says how many requests were refused where that is due.
    pub fn reply(&self, outcome: Outcome) {
        let _ = self.replies.fetch_add(1, Ordering::SeqCst);
        match outcome {
            Outcome::Memory => self.memory.count(),
            Outcome::Keeper => self.keeper.count(),
            Outcome::Other => {}
        }
        self.report_refused();
    }

    fn report_refused(&self) {
        self.memory.report(&self.host, "503 memory");
        self.keeper.report(&self.host, "500 keeper");
    }

    /// Says that no connection is taken any more, where some of so many that were are still open.
    pub fn report_last(&self, accepted: u64) {
        let open = accepted.saturating_sub(self.closed.load(Ordering::SeqCst));
        if open > 0 {
            let _ = eprintln!(&self.host; "no more connections are taken; still open: {open}");
        }
    }

    /// Says what was served from this second on, at a store that kept so many commits, where it
    /// keeps any.
    pub fn report_end(&self, begun: u64, connections: u64, commits: Option<u64>) {
        let seconds = self.second().saturating_sub(begun);
        let replies = self.replies.load(Ordering::SeqCst);
        let memory = self.memory.all();
        let keeper = self.keeper.all();
        let _ = match commits {
            Some(commits) => eprintln!(&self.host;
                "ended after {seconds} s: connections {connections}, replies {replies}, \
                 commits {commits}, 503 memory {memory}, 500 keeper {keeper}"
            ),
            None => eprintln!(&self.host;
                "ended after {seconds} s: connections {connections}, replies {replies}, \
                 503 memory {memory}, 500 keeper {keeper}"
            ),
        };
    }
}

/// What a reply says of its request, as far as it is counted.
#[derive(Clone, Copy)]
pub enum Outcome {
    Memory,
    Keeper,
    Other,
}

impl Outcome {
    /// That of the reply which begins with these bytes. No other code has the status 503, nor 500.
    pub fn of(reply: &[u8]) -> Outcome {
        if reply.starts_with(b"HTTP/1.1 503 ") {
            Outcome::Memory
        } else if reply.starts_with(b"HTTP/1.1 500 ") {
            Outcome::Keeper
        } else {
            Outcome::Other
        }
    }
}

/// How many seconds are between two lines at least.
const PAUSE: u64 = 60;

/// How many requests were refused for one cause, how many of them no line has reported, and the
/// second from which on the next line may come.
#[derive(Drop)]
struct Refusals {
    all: AtomicU64,
    unreported: AtomicU64,
    next: AtomicU64,
}

impl Refusals {
    fn new() -> Refusals {
        Refusals {
            all: AtomicU64::new(0),
            unreported: AtomicU64::new(0),
            next: AtomicU64::new(0),
        }
    }

    fn count(&self) {
        let _ = self.all.fetch_add(1, Ordering::SeqCst);
        let _ = self.unreported.fetch_add(1, Ordering::SeqCst);
    }

    fn all(&self) -> u64 {
        self.all.load(Ordering::SeqCst)
    }

    /// Says how many no line has reported, where there are some and a line may come.
    fn report(&self, host: &HostRuntime, name: &str) {
        match self.due(host) {
            Some(count) => {
                let _ = eprintln!(host;
                    "requests refused with {name} since the last such line: {count}"
                );
            }
            None => {}
        }
    }

    /// How many a line has to report now, which then count as reported. Of several connections that
    /// ask at the same time only one is given them.
    fn due(&self, host: &HostRuntime) -> Option<u64> {
        if self.unreported.load(Ordering::SeqCst) == 0 {
            return None;
        }
        let now = second_now(host);
        let next = self.next.load(Ordering::SeqCst);
        if now < next || !self.moves(next, now.saturating_add(PAUSE)) {
            return None;
        }
        Some(self.unreported.swap(0, Ordering::SeqCst))
    }

    /// Whether the second from which on the next line may come was still this one, and is now the
    /// other.
    fn moves(&self, from: u64, to: u64) -> bool {
        self.next
            .compare_exchange(from, to, Ordering::SeqCst, Ordering::SeqCst)
            .is_ok()
    }
}
