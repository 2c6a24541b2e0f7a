// The keys of a table of costs.
ghost use Rattle.std.specs.Prelude.{◌≡◌, map};
ghost use Rattle.cost_table.specs.Keys.{fetch, part, extra, keys, is_key};
ghost use Rattle.cost_table.specs.Held.{key_of};

/// A key, the least cost that it takes, and whether a table may leave it out.
#[derive(Clone, Copy)]
pub struct Key {
    pub name: &'static str,
    pub least: u32,
    pub optional: bool,
}

/// The cost of a fetch, which is never 0.
pub fn fetch(name: &'static str) -> Key
    ensures { key_of result ≡ fetch name.now }
{
    Key {
        name,
        least: 1,
        optional: false,
    }
}

/// Any other part of a step's cost.
pub fn part(name: &'static str) -> Key
    ensures { key_of result ≡ part name.now }
{
    Key {
        name,
        least: 0,
        optional: false,
    }
}

/// A cost that is 0 where a table leaves it out.
pub fn extra(name: &'static str) -> Key
    ensures { key_of result ≡ extra name.now }
{
    Key {
        name,
        least: 0,
        optional: true,
    }
}

/// The keys, by their numbers from 1 on.
pub fn all_keys() -> [Key; 15]
    ensures { map key_of result ≡ keys }
{
    [
        fetch("fetch_flash"),
        fetch("fetch_spm"),
        part("alu"),
        part("mul"),
        part("div"),
        part("load"),
        part("store"),
        part("branch"),
        part("branch_taken"),
        part("jump"),
        part("ecall"),
        part("data_flash"),
        part("data_ram"),
        part("data_spm"),
        extra("stall"),
    ]
}

/// Whether one of the keys has this name.
pub fn is_key(keys: &[Key], name: &str) -> bool
    ensures { result ≡ is_key (map key_of keys.now) name.now }
{
    for key in keys {
        if key.name == name {
            return true;
        }
    }
    false
}
