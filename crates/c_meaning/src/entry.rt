// The number of main.
ghost use Rattle.std.specs.Prelude.{◌≡◌, map};
ghost use Rattle.facts_definitions.specs.FlowFacts.{id_in, index_of, main_of};
ghost use Rattle.types_tree.specs.Tree.{function_name};
ghost use Rattle.types_tree.specs.View.{function_of, program_of};

use types_tree::external::Function;
use types_tree::program::Program;
use wcc_base::Text;

/// The number of a name, or the number of all names.
fn id_in(names: &[Text], name: &[u8]) -> usize
    ensures { result ≡ id_in names.now name.now }
{
    for index in 0..names.len() {
        if names[index].as_bytes() == name {
            return index;
        }
    }
    names.len()
}

/// The number of the first function of a name, or that of all functions.
fn index_of(functions: &[Function], id: usize) -> usize
    ensures { result ≡ index_of id (map function_name (map function_of functions.now)) }
{
    for index in 0..functions.len() {
        if functions[index].name.0 as usize == id {
            return index;
        }
    }
    functions.len()
}

/// The number of the function `main`, or that of all functions where none has this name.
pub fn main_of(program: &Program) -> usize
    ensures { result ≡ main_of (program_of program.now) program.now.names.items }
{
    index_of(&program.functions, id_in(&program.names, b"main"))
}
