// Whole units, and what stands at file level.
use crate::declaration::{declaration, param};
use crate::printer::{Places, Printer};
use crate::statement::{item, restriction};
use c_tree::Unit;
use c_tree::external::{External, Function};
use std::alloc::{AllocError, Global};

fn function(printer: &mut Printer, function: &Function) -> Result<(), AllocError> {
    printer.open("function", function.at)?;
    printer.specifiers(&function.specifiers)?;
    printer.name(function.name)?;
    printer.place(function.name_at)?;
    for one in &function.params {
        param(printer, one)?;
    }
    printer.open("body", function.body_at)?;
    for one in &function.body {
        item(printer, one)?;
    }
    printer.mark("))")
}

fn external(printer: &mut Printer, external: &External) -> Result<(), AllocError> {
    match external {
        External::Restriction(one) => restriction(printer, one),
        External::Declaration(one) => declaration(printer, one),
        External::Function(one) => function(printer, one),
    }
}

/// What stands in a unit, as one line, with the places of its nodes or without.
pub fn line_of(alloc: Global, unit: &Unit, places: Places) -> Result<String, AllocError> {
    let mut printer = Printer::new(alloc, unit.names.as_slice(), places);
    printer.open("unit", unit.at)?;
    for one in &unit.items {
        external(&mut printer, one)?;
    }
    printer.close()?;
    Ok(printer.into_line())
}
