/// A keyword of wide C that the profile lacks (C11 6.4.1).
#[derive(Clone, Copy)]
pub enum Word {
    Alignof,
    Auto,
    Enum,
    Noreturn,
    Register,
    Sizeof,
    StaticAssert,
    Typedef,
    Volatile,
}
