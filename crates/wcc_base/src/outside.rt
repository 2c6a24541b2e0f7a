// Files, and a stream of bytes, by what they hold and how often they have failed.
ghost use Rattle.std.specs.Prelude.{◌≡◌, ◌⊎◌, ◌<◌, ◌≤◌, [], length, take, IsSome, IfSome, IfOk, OnOk, OnErr};
ghost use Rattle.wcc_base.specs.Outside.{StoreState, SinkState, file_of, bytes_of, told_put, told_add, told_append, counted, Reads, CountsRead, CountsWrite};

/// Why a call of a store or a sink was refused.
#[derive(Clone, Copy, Debug)]
pub enum Fault {
    /// The outside failed. Exactly such a call raises the count of its faults.
    Failed,
    /// Memory ran out.
    Memory,
}

/// Files by name. No call changes another file than the named one.
pub trait Store {
    /// The files, where the store tells them, and how often reading and writing have failed.
    ghost state: { Self → StoreState };

    /// Reads from a place of a file into the front of the buffer, and says how many bytes. None are
    /// read only at the end of the file or behind it. An absent file gives a fault or no bytes.
    fn read_at(&mut self, name: &str, at: u64, buf: &mut [u8]) -> Result<usize, Fault>
        requires { 0 < length buf.old }
        ensures bound { IfOk result (λ n. n ≤ length buf.old) }
        ensures read { IfOk result (λ n. IfSome (state self.old).files
            (λ fs. Reads (bytes_of fs name.now) at n buf.new)) }
        ensures same { (state self.new).files ≡ (state self.old).files }
        ensures counts { CountsRead (state self.old) (state self.new) result };

    /// Makes the file empty, new or not. After a refusal it is as before or empty.
    fn begin(&mut self, name: &str) -> Result<(), Fault>
        ensures ok { OnOk result ((state self.new).files ≡ told_put name.now [] (state self.old).files) }
        ensures err { OnErr result (((state self.new).files ≡ (state self.old).files)
            ⊎ ((state self.new).files ≡ told_put name.now [] (state self.old).files)) }
        ensures counts { CountsWrite (state self.old) (state self.new) result };

    /// Adds the first bytes of the piece to the file, at least one, and says how many.
    fn append(&mut self, name: &str, piece: &[u8]) -> Result<usize, Fault>
        requires some { 0 < length piece.now }
        requires there { IfSome (state self.old).files (λ fs. IsSome (file_of fs name.now)) }
        ensures bound { IfOk result (λ n. (0 < n) × (n ≤ length piece.now)) }
        ensures ok { IfOk result (λ n. (state self.new).files ≡ told_add name.now (take n piece.now) (state self.old).files) }
        ensures err { OnErr result ((state self.new).files ≡ (state self.old).files) }
        ensures counts { CountsWrite (state self.old) (state self.new) result };
}

/// A stream that takes bytes.
pub trait Sink {
    /// The bytes taken, where the sink tells them, and how often it has failed.
    ghost state: { Self → SinkState };

    /// Takes the first bytes of the piece, at least one, and says how many.
    fn put(&mut self, piece: &[u8]) -> Result<usize, Fault>
        requires { 0 < length piece.now }
        ensures bound { IfOk result (λ n. (0 < n) × (n ≤ length piece.now)) }
        ensures ok { IfOk result (λ n. (state self.new).written ≡ told_append (take n piece.now) (state self.old).written) }
        ensures err { OnErr result ((state self.new).written ≡ (state self.old).written) }
        ensures counts { (state self.new).faults ≡ counted (state self.old).faults result };
}
