// What is claimed of an image.
ghost use Rattle.claims_image.specs.Images.{ImagesHaveClaims};

/// Where code and data fit their regions, no claim on the image of a program is bad, each address that
/// it reaches is code, and its loops and functions fit its flow system.
pub fn images_have_claims()
    ensures { ImagesHaveClaims }
{}
