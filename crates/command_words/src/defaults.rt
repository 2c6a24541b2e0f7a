// What holds of the options that are not given.
ghost use Rattle.std.specs.Prelude.{◌≡◌, ◌≤◌};
ghost use Rattle.command_words.specs.Requests.{scratchpad_of, factor_of, size_of, limit_of};
ghost use Rattle.command_words.specs.Held.{compile_request, run_request};

use crate::request::{CompileRequest, RunRequest};

impl CompileRequest<'_> {
    /// How many bytes of the scratchpad may be used, none without `--spm`.
    pub fn scratchpad_bytes(&self) -> u64
        ensures value { result ≡ scratchpad_of (compile_request self.now) }
        ensures most { result ≤ 65536 }
    {
        match self.spm {
            Some(bytes) => bytes,
            None => 0,
        }
    }

    /// How often the body of a loop may be laid out, once without `--unroll`.
    pub fn unroll_factor(&self) -> u64
        ensures value { result ≡ factor_of (compile_request self.now) }
        ensures least { 1 ≤ result }
        ensures most { result ≤ 64 }
    {
        match self.unroll {
            Some(factor) => factor,
            None => 1,
        }
    }

    /// How large a called function may be to be laid out at its call; without `--inline` none is.
    pub fn inline_size(&self) -> u64
        ensures value { result ≡ size_of (compile_request self.now) }
        ensures most { result ≤ 10000 }
    {
        match self.inline {
            Some(size) => size,
            None => 0,
        }
    }
}

impl RunRequest<'_> {
    /// How many cycles the run may take, 1,000,000,000 without `--limit`.
    pub fn cycle_limit(&self) -> u64
        ensures value { result ≡ limit_of (run_request self.now) }
        ensures most { result ≤ 4611686018427387904 }
    {
        match self.limit {
            Some(limit) => limit,
            None => 1_000_000_000,
        }
    }
}
