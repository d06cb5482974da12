use an_app::find;
use an_base::Bytes;
use an_calls::{Answers, RowError};
use an_list::{Site, read_site};
use an_world::SureLink;
use std::alloc::Global;

/// Answers a line with the status of a run of `find` over it, on a link that never fails.
#[derive(Drop)]
pub struct SureRuns;

impl Answers for SureRuns {
    fn answer(&mut self, alloc: Global, argument: &str) -> Result<String, RowError> {
        let settings = settings(alloc)?;
        let mut link = SureLink::new(Bytes::new(alloc, argument.as_bytes())?, Vec::new(alloc));
        let status = find(alloc, &mut link, &settings).code();
        Ok(format!(in alloc; "{status}")?)
    }
}

fn settings(alloc: Global) -> Result<Site, RowError> {
    match read_site(alloc, "http://a.example", "10") {
        Ok(settings) => Ok(settings),
        Err(_) => Err(RowError::Form),
    }
}
