// What a row of the instruction table says.

/// Where the fields of a word stand: the base formats of the manual, the variant of I for
/// shifts by an immediate, whose upper seven bits are funct7, and the one word of ECALL.
#[derive(Clone, Copy)]
pub enum Format {
    R,
    I,
    Shift,
    S,
    B,
    U,
    J,
    Fixed,
}

/// What a step's cost goes by beside its fetch and its access.
#[derive(Clone, Copy)]
pub enum Class {
    Plain,
    Multiply,
    Divide,
    Load,
    Store,
    Branch,
    Jump,
    System,
}

/// A function of two words.
#[derive(Clone, Copy)]
pub enum Alu {
    Sum,
    Difference,
    ShiftLeft,
    IsLess,
    IsLessUnsigned,
    BitXor,
    ShiftRight,
    ShiftRightSigned,
    BitOr,
    BitAnd,
    Product,
    HighProduct,
    HighProductMixed,
    HighProductUnsigned,
    Quotient,
    QuotientUnsigned,
    Remainder,
    RemainderUnsigned,
}

/// What a branch tests of two words.
#[derive(Clone, Copy)]
pub enum Condition {
    Equal,
    NotEqual,
    Less,
    AtLeast,
    LessUnsigned,
    AtLeastUnsigned,
}

/// How much of memory a load or a store touches: one, two or four bytes.
#[derive(Clone, Copy)]
pub enum Width {
    Byte,
    Half,
    Word,
}

/// What an instruction does.
#[derive(Clone, Copy)]
pub enum Effect {
    /// The immediate into rd.
    SetUpper,
    /// The sum of the pc and the immediate into rd.
    AddUpper,
    /// A jump by the immediate; the address behind the instruction into rd.
    Link,
    /// The same, to rs1 plus the immediate with bit 0 cleared.
    LinkRegister,
    /// A jump by the immediate where rs1 and rs2 meet the condition.
    BranchIf(Condition),
    /// What stands at rs1 plus the immediate into rd, its sign extended or not.
    Read { width: Width, signed: bool },
    /// The low bytes of rs2 to rs1 plus the immediate.
    Write(Width),
    /// The function of rs1 and the immediate into rd.
    WithImmediate(Alu),
    /// The function of rs1 and rs2 into rd.
    WithRegister(Alu),
    /// A call of the environment.
    CallEnvironment,
}

/// A row of the instruction table.
#[derive(Clone, Copy)]
pub struct Row {
    pub format: Format,
    pub opcode: u8,
    pub funct3: u8,
    pub funct7: u8,
    pub class: Class,
    pub effect: Effect,
}
