// Declarations, objects and parameters.
use crate::expression::expression;
use crate::printer::Printer;
use c_tree::declaration::{Declaration, Initial, Object, Param, Shape};
use std::alloc::AllocError;

fn shape(printer: &mut Printer, shape: &Shape) -> Result<(), AllocError> {
    match shape {
        Shape::Scalar => Ok(()),
        Shape::Unsized => printer.word("[]"),
        Shape::Sized(size) => {
            printer.word("[")?;
            expression(printer, size)?;
            printer.mark("]")
        }
    }
}

fn initial(printer: &mut Printer, initial: &Initial) -> Result<(), AllocError> {
    match initial {
        Initial::Absent => Ok(()),
        Initial::Value(value) => {
            printer.word("=")?;
            expression(printer, value)
        }
        Initial::List { values, comma } => {
            printer.word("{")?;
            for value in values {
                expression(printer, value)?;
            }
            printer.mark(if *comma { ",}" } else { "}" })
        }
    }
}

fn object(printer: &mut Printer, object: &Object) -> Result<(), AllocError> {
    printer.open("object", object.at)?;
    printer.name(object.name)?;
    shape(printer, &object.shape)?;
    initial(printer, &object.initial)?;
    printer.close()
}

pub fn param(printer: &mut Printer, param: &Param) -> Result<(), AllocError> {
    printer.open("param", param.at)?;
    printer.specifiers(&param.specifiers)?;
    if let Some(name) = param.name {
        printer.name(name)?;
    }
    shape(printer, &param.shape)?;
    printer.close()
}

pub fn declaration(printer: &mut Printer, declaration: &Declaration) -> Result<(), AllocError> {
    match declaration {
        Declaration::Objects {
            specifiers,
            objects,
            at,
        } => {
            printer.open("objects", *at)?;
            printer.specifiers(specifiers)?;
            for one in objects {
                object(printer, one)?;
            }
            printer.close()
        }
        Declaration::Prototype {
            specifiers,
            name,
            params,
            at,
        } => {
            printer.open("prototype", *at)?;
            printer.specifiers(specifiers)?;
            printer.name(*name)?;
            for one in params {
                param(printer, one)?;
            }
            printer.close()
        }
    }
}
