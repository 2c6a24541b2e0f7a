// The arguments of commands.
ghost use Rattle.std.specs.Prelude.{◌<◌, ◌^◌};

/// The numbers from `least` to `most`.
#[derive(Clone, Copy)]
pub struct Numbers {
    pub least: u32,
    pub most: u64,
    pub ghost fits: { most < 2 ^ 63 },
}

/// An argument of a command.
#[derive(Clone, Copy)]
pub enum Argument<'a> {
    /// A file's name, by its place.
    File(&'a str),
    /// A number, by its place.
    Number(&'a str, Numbers),
    /// A file's name, by an option of this name.
    FileOption(&'a str),
    /// A number, by an option of this name.
    NumberOption(&'a str, Numbers),
    /// A flag of this name.
    Flag(&'a str),
}
