// The lines of regions where items touch what they are said to: the sum of squares over registers, with `square` in the
// scratchpad.
ghost use Rattle.claims_lists.specs.Places.{IsRoomy};

use crate::laying::{first_function, layout_of};
use crate::programs::sum_of_squares;
use crate::registers::in_registers;
use crate::telling::region_line;
use claims_lists::Laying;
use claims_regions::{Touched, region_lines};
use low_ir::LowReg;
use std::alloc::Global;
use wcc_base::{Items, Memory};

const RAM: Option<Touched> = Some(Touched {
    flash: false,
    spm: false,
    ram: true,
});

const CONSTANTS: Option<Touched> = Some(Touched {
    flash: true,
    spm: false,
    ram: false,
});

fn block(alloc: Global, touched: &[Option<Touched>]) -> Result<Items<Option<Touched>>, Memory> {
    Ok(Items::new(touched.to_vec(alloc)?))
}

/// What the items of both functions touch: `square` RAM by its first item and its fourth, and main RAM by the first item of its
/// first block and by those around the call of its fourth block. The call is said to touch constants, as none does.
fn touched(alloc: Global) -> Result<Vec<Items<Items<Option<Touched>>>>, Memory> {
    let mut square = Vec::new(alloc);
    square.push(block(alloc, &[RAM, None, None, RAM])?)?;
    let mut main = Vec::new(alloc);
    main.push(block(alloc, &[RAM])?)?;
    main.push(block(alloc, &[])?)?;
    main.push(block(alloc, &[])?)?;
    main.push(block(alloc, &[RAM, CONSTANTS, RAM])?)?;
    let mut all = Vec::new(alloc);
    all.push(Items::new(square))?;
    all.push(Items::new(main))?;
    Ok(all)
}

fn lines(alloc: Global, laying: &Laying<'_>) -> Result<String, Memory>
    requires { IsRoomy laying.now.layout.now }
{
    let touched = touched(alloc)?;
    let found = region_lines(alloc, laying, &touched)?;
    let mut lines = String::new(alloc);
    for line in &found {
        lines.push_str(region_line(alloc, line)?.as_str())?;
    }
    Ok(lines)
}

fn lines_in(alloc: Global, code: &LowReg) -> Result<String, Memory> {
    let placement = first_function(alloc)?;
    let layout = layout_of(alloc, code, &placement, 0x1000_0000)?;
    let laying = Laying {
        code,
        layout: &layout,
        placed: &[true],
    };
    let found = lines(alloc, &laying);
    drop(layout);
    found
}

/// Lines in the order of addresses, where neighbours that touch the same are one: main begins at 0, its fourth block at 16, and
/// the call, of 8 bytes, at 20.
pub fn lines_of(alloc: Global) -> Result<String, Memory> {
    let code = in_registers(alloc, sum_of_squares(alloc, Vec::new(alloc))?)?;
    let found = lines_in(alloc, &code);
    drop(code);
    found
}
