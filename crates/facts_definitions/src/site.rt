use c_tree::Pragma;
use c_tree::expression::NameId;

/// What facts are read from.
#[derive(Drop)]
pub enum Site {
    /// The loop of this number at the place of its keyword, with its pragma.
    Bounded { number: u32, pragma: Pragma },
    /// The loop of this number at the place of its keyword, without a pragma.
    Unbounded { number: u32, at: u32 },
    /// The filling of so many elements that a local list leaves over.
    Filling { number: u32, count: u32 },
    Marker(Pragma),
    Restriction(Pragma),
    /// A function that is declared or defined there.
    Function(NameId),
}
