use crate::conn::Asker;
use sessions::AckResults;

/// A Publish request that is to be answered, one that was queued or one that just came (OPC 10000-4, 5.13.5).
#[derive(Debug, Drop)]
pub struct Waiting {
    /// Who is to be answered.
    pub asker: Asker,
    /// What became of its acknowledgements, one status code for each.
    pub results: AckResults,
}
