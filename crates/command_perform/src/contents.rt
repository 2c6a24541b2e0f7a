// The contents of the files of a command, taken apart.
ghost use Rattle.std.specs.Prelude.{◌≡◌, [], ◌∷◌, length};

use wcc_base::Items;

/// There is no file.
pub fn none(contents: Vec<Items<u8>>)
    requires { length contents.items ≡ 0 }
    ensures { contents.items ≡ [] }
{
    drop(contents);
}

/// The one file's contents.
pub fn one(contents: Vec<Items<u8>>) -> Items<u8>
    requires { length contents.items ≡ 1 }
    ensures { contents.items ≡ result ∷ [] }
{
    let mut contents = contents;
    contents.pop().unwrap()
}

/// Both files' contents.
pub fn two(contents: Vec<Items<u8>>) -> (Items<u8>, Items<u8>)
    requires { length contents.items ≡ 2 }
    ensures { contents.items ≡ result.0 ∷ result.1 ∷ [] }
{
    let mut contents = contents;
    let second = contents.pop().unwrap();
    (one(contents), second)
}

/// All three files' contents.
pub fn three(contents: Vec<Items<u8>>) -> (Items<u8>, Items<u8>, Items<u8>)
    requires { length contents.items ≡ 3 }
    ensures { contents.items ≡ result.0 ∷ result.1 ∷ result.2 ∷ [] }
{
    let mut contents = contents;
    let third = contents.pop().unwrap();
    let (first, second) = two(contents);
    (first, second, third)
}
