// The names of a source, each by a number.
ghost use Rattle.std.specs.Prelude.{◌≡◌, ◌<◌, ℕ, List, [], ◌++◌, length, IfOk, OnOk};
ghost use Rattle.c_tree.specs.Bytes.{is_letter, is_name_byte};
ghost use Rattle.c_tree.specs.Names.{name_of, with_name, with_names, AreDistinct};
ghost use Rattle.c_tree.specs.Pragmas.{names_in, with_run};

use c_tree::expression::NameId;
use indexmap::IndexSet;
use parse_tokens::behind_first_word;
use std::alloc::{AllocError, Global};
use std::marker::Model;
use wcc_base::Text;

/// The names that have stood so far, each once, in the order in which they first stood.
#[derive(Drop)]
pub struct Numbering<'a> {
    set: IndexSet<&'a [u8]>,
}

impl<'a> Model for Numbering<'a> {
    ghost use Rattle.std.specs.Prelude.{ℕ, List, map};

    ghost Value = { List (List ℕ) };

    ghost view = { λ names. map (λ name. name.now) names.set.keys };
}

/// The number of the name at this place. That it has none counts as want of memory, since so many
/// names are more than memory holds.
fn id_of(index: usize) -> Result<NameId, AllocError>
    ensures { IfOk result (λ id. id.0 ≡ index) }
{
    match u32::try_from(index) {
        Ok(number) => Ok(NameId(number)),
        Err(_) => Err(AllocError),
    }
}

impl<'a> Numbering<'a> {
    /// No name yet.
    pub fn new(alloc: Global) -> Numbering<'a>
        ensures { result ≡ [] }
    {
        Numbering {
            set: IndexSet::new(alloc),
        }
    }

    /// The number of a name, which it keeps whatever names come behind it.
    pub fn number(&mut self, name: &'a [u8]) -> Result<NameId, AllocError>
        ensures names { OnOk result (self.new ≡ with_name self.old name.now) }
        ensures named { IfOk result (λ id. (more : List (List ℕ)) → name_of (self.new ++ more) id.0 ≡ name.now) }
        ensures within { IfOk result (λ id. id.0 < length self.new) }
    {
        let (index, _) = self.set.insert_full(name)?;
        let id = id_of(index)?;
        Ok(id)
    }

    /// The names, in the order of their numbers.
    pub fn names(&self, alloc: Global) -> Result<Vec<Text>, AllocError>
        ensures all { IfOk result (λ names. names.items ≡ self.now) }
        ensures distinct { IfOk result (λ names. AreDistinct names.items) }
    {
        let keys = self.set.as_slice();
        let mut names = Vec::with_capacity(alloc, keys.len())?;
        for name in keys {
            names.push(Text::new(name.to_vec(alloc)?))?;
        }
        Ok(names)
    }
}

fn is_letter(b: u8) -> bool
    ensures { result ≡ is_letter b }
{
    matches!(b, b'A'..=b'Z' | b'a'..=b'z' | b'_')
}

fn is_name_byte(b: u8) -> bool
    ensures { result ≡ is_name_byte b }
{
    is_letter(b) || b.is_ascii_digit()
}

/// Numbers a run of letters and digits, where it is a name.
fn number_run<'a>(names: &mut Numbering<'a>, run: &'a [u8]) -> Result<(), AllocError>
    ensures { OnOk result (names.new ≡ with_names names.old (with_run run.now [])) }
{
    if !run.is_empty() && is_letter(run[0]) {
        names.number(run)?;
    }
    Ok(())
}

/// Numbers the names in the text of a marker or of a restriction.
pub fn number_text<'a>(names: &mut Numbering<'a>, text: &'a [u8]) -> Result<(), AllocError>
    ensures { OnOk result (names.new ≡ with_names names.old (names_in text.now)) }
{
    let rest = behind_first_word(text);
    let mut from = 0;
    for at in 0..rest.len() {
        if !is_name_byte(rest[at]) {
            number_run(names, &rest[from..at])?;
            from = at + 1;
        }
    }
    number_run(names, &rest[from..])
}
