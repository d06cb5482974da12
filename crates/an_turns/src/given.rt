//! What each run is given.
use an_base::{Bytes, Moment};
use std::alloc::{AllocError, Global};

/// Words that serve the links of a door by two workers, until none is left.
pub(crate) fn words(alloc: Global) -> Result<Vec<String>, AllocError> {
    let mut words = Vec::new(alloc);
    for word in ["-", "serve", "http://a.example", "10", "8080", "2", "0"] {
        words.push(String::from_str(alloc, word)?)?;
    }
    Ok(words)
}

/// 2024-05-01T12:00:00Z, at which the clock stands.
pub(crate) fn noon() -> Moment {
    match Moment::new(1_714_564_800) {
        Some(moment) => moment,
        None => unreachable!(),
    }
}

/// The bytes of requests in which `\r\n` ends a line.
pub(crate) fn input_of(alloc: Global, requests: &str) -> Result<Bytes, AllocError> {
    let bytes = requests.replace(alloc, "\\r\\n", "\r\n")?;
    Bytes::new(alloc, bytes.as_bytes())
}
