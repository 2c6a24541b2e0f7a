// How a simulation ends.

/// Why a simulation doesn't go on.
#[derive(Clone, Copy)]
pub enum Ending {
    /// The program has exited with this value.
    Exit { value: i32 },
    /// The instruction at this address trapped. Kinds: 1 no instruction can be fetched, 2 the word
    /// is no instruction, 3 a load isn't in readable memory, 4 a store isn't in writable memory,
    /// 5 an access isn't aligned, 6 the environment has no such call.
    Trap { pc: u32, kind: u8 },
    /// The next step would pass the limit of cycles.
    CycleLimit,
    /// The next step would write a byte for which there is no room.
    OutputFull,
}
