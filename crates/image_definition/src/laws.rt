// What is proved, by calls with empty bodies.
ghost use Rattle.image_definition.specs.ImageLaws.{ImagesAreLaid, ImagesAreLoadable};
ghost use Rattle.image_definition.specs.Sizes.{NothingFits, SizesFit};

/// The image of a program holds its code as the program's graph says.
pub fn images_are_laid()
    ensures { ImagesAreLaid }
{}

/// It can be loaded.
pub fn images_are_loadable()
    ensures { ImagesAreLoadable }
{}

/// Code and data of a program that keeps to these sizes fit their regions.
pub fn sizes_fit()
    ensures { SizesFit }
{}

/// A program whose code and data have room keeps to these sizes where nothing is placed.
pub fn nothing_fits()
    ensures { NothingFits }
{}
