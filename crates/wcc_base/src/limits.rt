// The limits of the compiler's inputs.
ghost use Rattle.std.specs.Prelude.{◌≡◌};
ghost use Rattle.wcc_base.specs.Limits.{greatest_of};

/// A quantity that has a limit.
#[derive(Clone, Copy, Debug, PartialEq, Eq)]
pub enum Bound {
    /// Bytes of a source.
    Source,
    /// Bytes of a cost table.
    Table,
    /// Bytes of an image that is read.
    Image,
    /// Bytes of a report that is read.
    Report,
    /// Bytes of the input of a run.
    Input,
    /// Bytes of a list of tasks.
    Tasks,
    /// Depth of the source's tree.
    Depth,
    /// Nodes of the source's tree.
    Nodes,
    /// Function definitions.
    Functions,
    /// Parameters of one function.
    Parameters,
    /// Marker pragmas.
    Markers,
    /// Flow restriction pragmas.
    Restrictions,
    /// Bytes of the global objects.
    Globals,
    /// Bytes of the parameters and local objects of all functions.
    Locals,
    /// Node executions that the loop bounds allow to a run of main.
    Most,
}

/// The greatest number that passes.
pub fn limit_of(which: Bound) -> u64
    ensures { result ≡ greatest_of which }
{
    match which {
        Bound::Source => 1_048_576,
        Bound::Table => 65_536,
        Bound::Image => 16_777_216,
        Bound::Report => 536_870_912,
        Bound::Input => 16_777_216,
        Bound::Tasks => 65_536,
        Bound::Depth => 256,
        Bound::Nodes => 16_384,
        Bound::Functions => 256,
        Bound::Parameters => 8,
        Bound::Markers => 4_096,
        Bound::Restrictions => 32,
        Bound::Globals => 262_144,
        Bound::Locals => 262_144,
        Bound::Most => (1 << 40) - 1,
    }
}
