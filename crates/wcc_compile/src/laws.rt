// What is reported is what is promised.
ghost use Rattle.wcc_compile.specs.Laws.{ReportedAreCompiled};

use compile_promise::{
    made_take_what_is_placed, reported_are_lined, reported_run_as_sources, reported_tell_facts,
};
use compile_report_law::reported_hold;

/// The image of a source and what is reported of it are what `compile` promises.
pub fn reported_are_compiled()
    ensures { ReportedAreCompiled }
{
    reported_run_as_sources();
    reported_tell_facts();
    reported_are_lined();
    reported_hold();
    made_take_what_is_placed();
}
