// The numbers of names.
ghost use Rattle.std.specs.Prelude.{◌≡◌, IfOk};
ghost use Rattle.facts_definitions.specs.FlowFacts.{id_in};

use super::bytes::same_bytes;
use c_tree::expression::NameId;
use std::alloc::AllocError;
use wcc_base::Text;

fn index(names: &[Text], name: &[u8]) -> usize
    ensures { result ≡ id_in names.now name.now }
{
    for i in 0..names.len() {
        if same_bytes(names[i].as_bytes(), name) {
            return i;
        }
    }
    names.len()
}

/// The number of a name in a list of names, or the list's length. Where it has no 32 bits, memory would have run out
/// before.
pub fn name_id(names: &[Text], name: &[u8]) -> Result<NameId, AllocError>
    ensures { IfOk result (λ id. id.0 ≡ id_in names.now name.now) }
{
    match u32::try_from(index(names, name)) {
        Ok(number) => Ok(NameId(number)),
        Err(_) => Err(AllocError),
    }
}
