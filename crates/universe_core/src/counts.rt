/// How many a job has of each: enrolled issuers, members of its universe and of its revoked set, and entries of each
/// class.
#[derive(Clone, Copy, Debug, PartialEq, Eq)]
pub struct Counts {
    pub issuers: u32,
    pub universe: u32,
    pub revoked: u32,
    pub unread: u32,
    pub uncovered: u32,
    pub unenrolled: u32,
    pub late: u32,
    pub accepted: u32,
}
