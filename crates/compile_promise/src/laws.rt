// What is proved, by calls with empty bodies.
ghost use Rattle.compile_promise.specs.LengthLaws.{TextsAreShort};
ghost use Rattle.compile_promise.specs.RunLaws.{ReportedRunAsSources};
ghost use Rattle.compile_promise.specs.Shows.{ImagesShow, SourcesShow};
ghost use Rattle.compile_promise.specs.ToldLaws.{MadeTakeWhatIsPlaced, ReportedAreLined, ReportedTellFacts};

/// The texts of image and report are short enough to be checked.
pub fn texts_are_short()
    ensures { TextsAreShort }
{}

/// The machine that runs the image shows what was shown before, within the cycles of an accepted certificate.
pub fn images_show()
    ensures { ImagesShow }
{}

/// Where main ends, so does the machine that runs the image of its source, with the same value, output and counts, in time.
pub fn sources_show()
    ensures { SourcesShow }
{}

/// On every input on which a source's run is defined and keeps its annotations the image does what the source does, in time.
pub fn reported_run_as_sources()
    ensures { ReportedRunAsSources }
{}

/// The lines of the report are what a source says.
pub fn reported_tell_facts()
    ensures { ReportedTellFacts }
{}

/// Each load and store lies in a line of regions, in each of which the image has bytes.
pub fn reported_are_lined()
    ensures { ReportedAreLined }
{}

/// An image takes no more of the scratchpad than what is placed there.
pub fn made_take_what_is_placed()
    ensures { MadeTakeWhatIsPlaced }
{}
