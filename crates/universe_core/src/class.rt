/// What an entry of a job is.
#[derive(Clone, Copy, Debug, PartialEq, Eq)]
pub enum Class {
    /// It gives no identity.
    Unread,
    /// The job's ranges don't cover its sighting.
    Uncovered,
    /// The job doesn't enroll its issuer.
    Unenrolled,
    /// An earlier part covers its sighting and enrolls its issuer, and was built without its identity.
    Late,
    Accepted,
}
