// The labels of a switch.
ghost use Rattle.std.specs.Prelude.{◌≡◌, IfOk};
ghost use Rattle.types_tree.specs.View.{items_of};
ghost use Rattle.high_code.specs.Code.{joined, nothing};
ghost use Rattle.high_ir.specs.declared.expression.BinaryOperator.TheVariants as binary;
ghost use Rattle.high_ir.specs.Tree.{Binary, Constant, End, If, Seq, Variable};
ghost use Rattle.high_ir.specs.View.{statement_of};
ghost use Rattle.plan_definition.specs.Statements.{default_number, guarded, label_count, label_tests};
ghost use Rattle.make_pieces.specs.View.{code_of, leaf_expr};
ghost use Rattle.make_statement.specs.Parts.{labels_in};
ghost use Rattle.make_statement.specs.Planned.{is_label, item_tests, label_test};

use high_ir::expression::{BinaryOperator, Expr};
use high_ir::expressions::binary;
use high_ir::statement::Statement;
use high_ir::statements::choice;
use make_pieces::numbers::sum;
use make_pieces::statements::nothing;
use make_pieces::{Code, Leaf};
use std::alloc::Global;
use types_tree::statement::{Item, Label};
use wcc_base::Memory;

/// What notes which part of a switch is chosen, by which value.
#[derive(Clone, Copy)]
pub struct Choice {
    pub word: Leaf,
    /// The variable that notes the number of the chosen label.
    pub noted: u32,
}

/// The number of the first default, or one more than that of all labels; the first label has the number 1.
pub fn default_number(items: &[Item]) -> Result<u32, Memory>
    ensures { IfOk result (λ n. n ≡ default_number (items_of items.now) 1) }
{
    let mut number = 1;
    for item in items {
        match item {
            Item::Declaration(_) => {}
            Item::Statement(_) => {}
            Item::Restriction(_) => {}
            Item::Label(label) => match label {
                Label::Case { .. } => number = sum(number, 1)?,
                Label::Default { .. } => return Ok(number),
            },
        }
    }
    Ok(number)
}

/// Notes the number of a label whose word is equal.
fn label_test(alloc: Global, choice_by: Choice, own: u32, number: u32) -> Result<Statement, Memory>
    ensures { IfOk result (λ s. statement_of s ≡ label_test (leaf_expr choice_by.word) choice_by.noted own number) }
{
    let word = choice_by.word.expr();
    let test = binary(alloc, BinaryOperator::Equal, word, Expr::Constant(own))?;
    let note = Statement::Set {
        variable: choice_by.noted,
        value: Expr::Constant(number),
    };
    choice(alloc, test, note, nothing(alloc))
}

/// The tests of later labels, and then that of an item.
fn with_test(
    alloc: Global,
    choice_by: Choice,
    item: &Item,
    number: u32,
    later: Code,
) -> Result<Code, Memory>
    ensures { IfOk result (λ c. code_of c ≡ joined (code_of later) (item_tests (leaf_expr choice_by.word) choice_by.noted item.now number)) }
{
    match item {
        Item::Declaration(_) => Ok(later),
        Item::Statement(_) => Ok(later),
        Item::Restriction(_) => Ok(later),
        Item::Label(label) => match label {
            Label::Default { .. } => Ok(later),
            Label::Case { word, .. } => match label_test(alloc, choice_by, *word, number) {
                Ok(test) => later.then(test),
                Err(memory) => {
                    later.let_go();
                    Err(memory)
                }
            },
        },
    }
}

/// Whether an item is a label.
pub fn is_label(item: &Item) -> bool
    ensures { result ≡ is_label item.now }
{
    match item {
        Item::Declaration(_) => false,
        Item::Statement(_) => false,
        Item::Restriction(_) => false,
        Item::Label(_) => true,
    }
}

/// How many labels an item is.
fn labels_in(item: &Item) -> u32
    ensures { result ≡ labels_in item.now }
{
    match item {
        Item::Declaration(_) => 0,
        Item::Statement(_) => 0,
        Item::Restriction(_) => 0,
        Item::Label(_) => 1,
    }
}

fn label_count(items: &[Item]) -> Result<u32, Memory>
    ensures { IfOk result (λ n. n ≡ label_count (items_of items.now)) }
{
    let mut count = 0;
    for item in items {
        count = sum(count, labels_in(item))?;
    }
    Ok(count)
}

/// The tests of all labels, the last one first, so that the first equal label is noted at last.
pub fn label_tests(alloc: Global, choice_by: Choice, items: &[Item]) -> Result<Code, Memory>
    ensures { IfOk result (λ c. code_of c ≡ label_tests (leaf_expr choice_by.word) choice_by.noted (items_of items.now) 1) }
{
    let mut number = sum(label_count(items)?, 1)?;
    let mut tests = Code::new(alloc);
    let mut i = items.len();
    while i > 0 {
        i -= 1;
        let item = &items[i];
        number -= labels_in(item);
        tests = with_test(alloc, choice_by, item, number, tests)?;
    }
    Ok(tests)
}

/// A statement that is run where no later label than this number was chosen.
fn guard(alloc: Global, noted: u32, number: u32, part: Code) -> Result<Statement, Memory>
    ensures { IfOk result (λ s. statement_of s ≡ If (Binary binary.AtLeastUnsigned (Constant number) (Variable noted)) (Seq (code_of part)) nothing) }
{
    let test = binary(
        alloc,
        BinaryOperator::AtLeastUnsigned,
        Expr::Constant(number),
        Expr::Variable(noted),
    );
    match test {
        Ok(test) => choice(alloc, test, part.seq(), nothing(alloc)),
        Err(memory) => {
            part.let_go();
            Err(memory)
        }
    }
}

/// Earlier parts of a switch, and then the part of a label.
pub fn with_part(
    alloc: Global,
    noted: u32,
    number: u32,
    before: Code,
    part: Code,
) -> Result<Code, Memory>
    ensures { IfOk result (λ c. code_of c ≡ joined (code_of before) (guarded noted number (code_of part) End)) }
{
    if part.is_empty() {
        part.let_go();
        return Ok(before);
    }
    match guard(alloc, noted, number, part) {
        Ok(part) => before.then(part),
        Err(memory) => {
            before.let_go();
            Err(memory)
        }
    }
}
