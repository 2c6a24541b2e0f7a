// Programs over a byte, which is 7 at first, in which some operators change nothing.
use high_ir::expression::{BinaryOperator, Expr, UnaryOperator};
use high_ir::object::{Array, Base, Kind, Object, Storage};
use high_ir::statement::Statement;
use high_ir::{Function, High};
use std::alloc::{AllocError, Global};

fn one_byte(alloc: Global) -> Result<Vec<Object>, AllocError> {
    let mut objects = Vec::new(alloc);
    objects.push(Object {
        kind: Kind::Unsigned8,
        storage: Storage::Global,
        length: 1,
        values: vec![in alloc; 7]?,
    })?;
    Ok(objects)
}

/// `return (unsigned char) (a[0] & 127);`
pub fn conversion(alloc: Global) -> Result<High, AllocError> {
    let byte = Expr::Element {
        array: Array {
            kind: Kind::Unsigned8,
            base: Base::Object(0),
        },
        index: Box::new(alloc, Expr::Constant(0))?,
    };
    let masked = Expr::Binary {
        operator: BinaryOperator::And,
        left: Box::new(alloc, byte)?,
        right: Box::new(alloc, Expr::Constant(127))?,
    };
    let value = Expr::Unary {
        operator: UnaryOperator::Convert(Kind::Unsigned8),
        operand: Box::new(alloc, masked)?,
    };
    let function = Function {
        values: 0,
        arrays: 0,
        locals: 0,
        rank: 0,
        body: Statement::Return { value },
    };
    let mut functions = Vec::new(alloc);
    functions.push(function)?;
    Ok(High {
        functions,
        objects: one_byte(alloc)?,
        main: 0,
        marks: 1,
        loops: 0,
    })
}

/// `return 1 * a[0] | 0;`
pub fn neutral(alloc: Global) -> Result<High, AllocError> {
    let byte = Expr::Element {
        array: Array {
            kind: Kind::Unsigned8,
            base: Base::Object(0),
        },
        index: Box::new(alloc, Expr::Constant(0))?,
    };
    let product = Expr::Binary {
        operator: BinaryOperator::Multiply,
        left: Box::new(alloc, Expr::Constant(1))?,
        right: Box::new(alloc, byte)?,
    };
    let value = Expr::Binary {
        operator: BinaryOperator::Or,
        left: Box::new(alloc, product)?,
        right: Box::new(alloc, Expr::Constant(0))?,
    };
    let function = Function {
        values: 0,
        arrays: 0,
        locals: 0,
        rank: 0,
        body: Statement::Return { value },
    };
    let mut functions = Vec::new(alloc);
    functions.push(function)?;
    Ok(High {
        functions,
        objects: one_byte(alloc)?,
        main: 0,
        marks: 1,
        loops: 0,
    })
}
