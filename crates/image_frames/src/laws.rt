// The laws of frames.
ghost use Rattle.image_frames.specs.Laws.{FramesAreSaving, FramesAreThere, FramesLieInRam};

/// Functions save machine registers, no more of them than there are.
pub fn frames_are_saving()
    ensures { FramesAreSaving }
{}

/// Each function has a frame, and no frame lies before RAM.
pub fn frames_are_there()
    ensures count { FramesAreThere }
    ensures ram { FramesLieInRam }
{}
