use thiserror::Error;

/// Why nothing is read of a certificate. Which comes first, where several hold, is said at `scts`.
#[derive(Clone, Copy, Debug, PartialEq, Eq, Error)]
pub enum CertFault {
    /// The bytes aren't a certificate of this profile (RFC 5280, 4.1).
    #[error("it isn't a certificate")]
    Malformed,
    /// It carries no timestamp of version 1.
    #[error("it carries no signed certificate timestamp")]
    NoScts,
    /// Its list of timestamps isn't one of RFC 6962, 3.3.
    #[error("its signed certificate timestamps can't be read")]
    BadScts,
    /// It carries more than 64 timestamps of version 1.
    #[error("it carries too many signed certificate timestamps")]
    TooManyScts,
}
