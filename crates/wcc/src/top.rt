// The top call.
ghost use Rattle.std.specs.Prelude.{◌≡◌, ◌⊎◌, map, None, string_bytes};
ghost use Rattle.wcc_base.specs.declared.status.Status.{Status};
ghost use Rattle.command_perform.specs.Words.{asked_by};
ghost use Rattle.command_perform.specs.Ends.{EndsWith};
ghost use Rattle.command_perform.specs.Checkable.{IsCheckable};
ghost use Rattle.command_perform.specs.Building.{AreBuilt};
ghost use Rattle.command_perform.specs.Making.{MakeEnds};
ghost use Rattle.command_perform.specs.Promises.{IsDone, Answers, CanEnd, NoFault};
ghost use Rattle.wcc_compile.specs.Written.{IsWritten};

use command_answers::answer;
use std::alloc::Global;
use wcc_base::{Sink, Status, Store};
use wcc_compile::WccCompiler;

/// The program: it does what the words ask, prints how it ended, and says so.
///
/// The words, without the program's name, are those of a command, as `command_words` reads them.
pub fn wcc<S: Store, O: Sink>(alloc: Global, words: &[String], store: &mut S, out: &mut O) -> Status
    // Whatever the status: which files are whole, partly written or as they were, and what was printed.
    ensures ends { EndsWith (asked_by (map string_bytes words.now)) (S.state store.old) (S.state store.new) (O.state out.old) (O.state out.new) result }

    // The promise: on every input on which its source is kept, a written image does what the source
    // does within the printed cycles, and the written report, whose claims are the source's facts,
    // holds of it, with cycles that are the greatest that it allows unless it shows the number or round
    // that stopped the search; cycles that are said to hold bound each finished run that keeps the claims, on
    // every input; what is said of a run is what the machine does; and the responses of tasks are the
    // least ones of the cycles that their reports are found to hold, and no job ends later.
    ensures done { result ≡ Status.Done → IsDone (asked_by (map string_bytes words.now)) (S.state store.old) (S.state store.new) (O.state out.old) (O.state out.new) }

    // What `compile` wrote went through every stage with what its words say: the costs of its table, each
    // pass with its number, so that those of `--inline` and `--unroll` are the ones that were used,
    // bounds that are derived where that is asked for, and the best choice of what lies in the scratchpad
    // within the bytes of `--spm`. `make` takes no options.
    ensures built { result ≡ Status.Done → AreBuilt IsWritten (asked_by (map string_bytes words.now)) (S.state store.old) (S.state store.new) }

    // What `compile` and `make` wrote, `check` accepts: with the same table it can only end so.
    ensures checked { result ≡ Status.Done → IsCheckable (asked_by (map string_bytes words.now)) (S.state store.old) (S.state store.new) }

    // `make` is done, unless writing fails or memory runs out: no number is refused, stopped or found not to hold.
    ensures make { MakeEnds (asked_by (map string_bytes words.now)) result }

    // What can only end in one way ends so, unless a fault is counted or memory runs out: a source
    // that has a program with facts is compiled, a report that holds is found to hold, an image that
    // exits within the limits is run, a report is summed up, and tasks whose reports hold and of which
    // none is late have their responses (the laws of `command_perform`).
    ensures succeeds { (s : Status) → CanEnd (asked_by (map string_bytes words.now)) (S.state store.old) s
        → NoFault (S.state store.old) (S.state store.new) (O.state out.old) (O.state out.new)
        → (result ≡ s) ⊎ (result ≡ Status.Memory) }

    // The table of answers: what each status tells. One count of faults has risen where the store's
    // fault is told, and else none of its counts; want of memory hides such a fault only where the sink
    // refused its line.
    ensures answers { Answers (asked_by (map string_bytes words.now)) (S.state store.old) (S.state store.new) (O.state out.old) (O.state out.new) result }
    ensures no_command { asked_by (map string_bytes words.now) ≡ None
        → (result ≡ Status.Usage) ⊎ (result ≡ Status.Memory) }
{
    answer(&WccCompiler, alloc, words, store, out)
}
