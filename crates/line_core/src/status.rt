/// How a call of the program ended: the exit status of the process.
#[derive(Clone, Copy, Debug, PartialEq, Eq)]
pub struct Status(pub u8);

impl Status {
    /// The command did what it is for.
    pub const DONE: Status = Status(0);
    /// The words are no command.
    pub const USAGE: Status = Status(2);
    /// A file breaks its layout.
    pub const BAD_LAYOUT: Status = Status(3);
    /// A CRL of a job isn't accepted.
    pub const BAD_CRL: Status = Status(4);
    /// A part or a job breaks its chain.
    pub const CHAIN: Status = Status(5);
    /// A job, or the ledger after it, is past a limit.
    pub const TOO_MANY: Status = Status(6);
    /// The equations of an issuer's block are unsolvable at each of the 256 seeds.
    pub const SEEDS: Status = Status(7);
    /// A file can't be read.
    pub const READ_FAULT: Status = Status(8);
    /// A file can't be written, or the sink failed.
    pub const WRITE_FAULT: Status = Status(9);
    /// A certificate isn't read, or its timestamps aren't.
    pub const BAD_CERT: Status = Status(12);
    /// The disk failed.
    pub const DISK_FAULT: Status = Status(13);
    /// A field of the device is short or fails its test.
    pub const BAD_DEVICE: Status = Status(14);
    /// There are more bytes than a slot of the device holds.
    pub const TOO_LONG: Status = Status(15);
    /// A page of a log isn't read.
    pub const BAD_PAGE: Status = Status(16);
    /// A store doesn't say the truth of an accepted entry.
    pub const DISAGREES: Status = Status(17);
    /// Memory was wanted.
    pub const NO_MEMORY: Status = Status(70);
}
