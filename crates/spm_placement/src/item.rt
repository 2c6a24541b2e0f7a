// What is chosen from.
ghost use Rattle.std.specs.Prelude.{◌≡◌};
ghost use Rattle.spm_placement.specs.Tops.{words, worth};

/// The code of a function, or an array.
#[derive(Clone, Copy)]
pub struct Item {
    /// The number of the function; arrays have the numbers behind those of functions.
    pub id: u32,
    /// In bytes, of whole words.
    pub size: u32,
    /// What it saves in the scratchpad, over the unit of the flow.
    pub gain: i128,
}

/// How many words an item takes.
pub fn words_of(item: &Item) -> usize
    ensures { result ≡ words item.now }
{
    (item.size / 4) as usize
}

/// What an item gains, and nothing where it loses.
#[tactic(auto, using(crate::proofs::Tops::none_worth, crate::proofs::Tops::some_worth))]
pub fn worth_of(item: &Item) -> u128
    ensures { result ≡ worth item.now }
{
    if item.gain <= 0 {
        return 0;
    }
    item.gain.unsigned_abs()
}
