ghost use Rattle.std.specs.Prelude.{◌≡◌, ◌⊎◌, ℕ, ◌≤◌, Option, List, [], ◌∷◌, ◌++◌, length, Ok, IfOk, OnOk, OnErr};
ghost use Rattle.std.specs.Option.{option_map};
ghost use Rattle.outside_core.specs.Files.{Files, putting, Rose, IsMissing, Gives, Appended, Torn};

/// The outside failed.
#[derive(Clone, Copy, Debug, PartialEq, Eq)]
pub struct Failed;

/// Files under names. What they hold may be told to contracts or not, and so may the names of the reads that failed;
/// no call changes whether it is.
pub trait Depot {
    /// The files, where they are told.
    ghost files: { Self → Option Files };
    /// How many reads have failed.
    ghost read_faults: { Self → ℕ };
    /// The names of the reads that failed and were counted, the last one last, where they are told.
    ghost failed_reads: { Self → Option (List (List ℕ)) };
    /// How many writes have failed.
    ghost write_faults: { Self → ℕ };

    /// Reads bytes of a file from `at` on into the front of `buf`, and answers how many. `Ok(0)` for a nonempty
    /// buffer is the end of the file.
    fn read_at(&mut self, name: &str, at: u64, buf: &mut [u8]) -> Result<usize, Failed>
        ensures count { IfOk result (λ n. n ≤ length buf.old) }
        ensures bytes { IfOk result (λ n. Gives (files self.old) name.now at buf.new n) }
        // A fault was counted, and the name came behind the others; or the name isn't held, and none came.
        ensures cause { OnErr result ((Rose (read_faults self.old) (read_faults self.new)
            × (failed_reads self.new ≡ option_map (λ names. names ++ name.now ∷ []) (failed_reads self.old)))
            ⊎ (IsMissing (files self.old) name.now × (failed_reads self.new ≡ failed_reads self.old))) }
        ensures unblamed { OnOk result (failed_reads self.new ≡ failed_reads self.old) }
        ensures missing { IsMissing (files self.old) name.now
            → (read_faults self.new ≡ read_faults self.old) × (failed_reads self.new ≡ failed_reads self.old) }
        ensures later { read_faults self.old ≤ read_faults self.new }
        ensures same_files { files self.new ≡ files self.old }
        ensures same_writes { write_faults self.new ≡ write_faults self.old };

    /// Makes the name hold nothing. After `Failed` the name is as before or holds nothing.
    fn begin(&mut self, name: &str) -> Result<(), Failed>
        ensures ok { OnOk result (files self.new ≡ putting (files self.old) name.now []) }
        ensures err { OnErr result ((files self.new ≡ files self.old) ⊎ (files self.new ≡ putting (files self.old) name.now [])) }
        ensures cause { OnErr result (Rose (write_faults self.old) (write_faults self.new)) }
        ensures later { write_faults self.old ≤ write_faults self.new }
        ensures same_reads { read_faults self.new ≡ read_faults self.old }
        ensures same_failed { failed_reads self.new ≡ failed_reads self.old };

    /// Adds a front of the bytes behind what the name holds, and answers how many it took: of bytes that are there at
    /// least one. An empty piece is answered by `Ok(0)`, and changes nothing. After `Failed` some front stands there.
    fn append(&mut self, name: &str, bytes: &[u8]) -> Result<usize, Failed>
        ensures ok { IfOk result (Appended (files self.old) (files self.new) name.now bytes.now) }
        ensures err { OnErr result (Torn (files self.old) (files self.new) name.now bytes.now) }
        ensures cause { OnErr result (Rose (write_faults self.old) (write_faults self.new)) }
        ensures empty { bytes.now ≡ []
            → (result ≡ Ok 0) × (files self.new ≡ files self.old) × (write_faults self.new ≡ write_faults self.old) }
        ensures later { write_faults self.old ≤ write_faults self.new }
        ensures same_reads { read_faults self.new ≡ read_faults self.old }
        ensures same_failed { failed_reads self.new ≡ failed_reads self.old };
}
