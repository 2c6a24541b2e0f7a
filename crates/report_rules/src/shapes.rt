// What the words behind the first one have to be, for each kind of line that has a fixed number of
// them.
ghost use Rattle.std.specs.Prelude.{◌≡◌};
ghost use Rattle.report_lines.specs.LineShapes.{unit_shapes};

use report_words::Shape;

/// A number below 2^32.
pub const SMALL: Shape = Shape::Number {
    least: 0,
    most: 4_294_967_295,
};

pub const CYCLES: [Shape; 1] = [Shape::Number {
    least: 0,
    most: 9_223_372_036_854_775_807,
}];

pub const EXIT: [Shape; 1] = [Shape::Address];

pub const NEVER: [Shape; 4] = [SMALL, SMALL, Shape::Address, Shape::Signed];

pub const REGION: [Shape; 3] = [Shape::Address, Shape::Address, Shape::Letters];

pub const LOOP: [Shape; 8] = [
    SMALL,
    SMALL,
    SMALL,
    SMALL,
    Shape::Address,
    Shape::Address,
    Shape::Signed,
    Shape::Signed,
];

pub const SCALE: [Shape; 1] = [Shape::Number {
    least: 1,
    most: 281_474_976_710_656,
}];

pub const POTENTIAL: [Shape; 2] = [Shape::Address, Shape::Signed];

pub const FLOW: [Shape; 3] = [
    Shape::Address,
    Shape::Number {
        least: 0,
        most: 255,
    },
    Shape::Amount { least: 1 },
];

pub const SHARE: [Shape; 4] = [
    Shape::Label,
    Shape::Address,
    Shape::Address,
    Shape::Amount { least: 0 },
];

/// Of a line `unit`.
pub fn unit_shapes(greatest: bool) -> [Shape; 1]
    ensures { result ≡ unit_shapes greatest }
{
    if greatest {
        SCALE
    } else {
        [Shape::Number { least: 0, most: 0 }]
    }
}
