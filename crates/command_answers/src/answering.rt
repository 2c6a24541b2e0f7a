// What is known of a command once it has ended.
ghost use Rattle.std.specs.Prelude.{◌≡◌, ◌⊎◌, map, None, string_bytes};
ghost use Rattle.wcc_base.specs.declared.status.Status.{Status};
ghost use Rattle.command_perform.specs.Words.{asked_by};
ghost use Rattle.command_perform.specs.Ends.{EndsWith};
ghost use Rattle.command_perform.specs.Checkable.{IsCheckable};
ghost use Rattle.command_perform.specs.Building.{AreBuilt};
ghost use Rattle.command_perform.specs.Making.{MakeEnds};
ghost use Rattle.command_perform.specs.Promises.{IsDone, Answers, CanEnd, NoFault};

use command_perform::perform;
use promise_compiler::Compiler;
use std::alloc::Global;
use wcc_base::{Sink, Status, Store};

/// Does what the words ask, by this compiler where something is compiled, prints how it ended, and says so.
pub fn answer<C: Compiler, S: Store, O: Sink>(
    compiler: &C,
    alloc: Global,
    words: &[String],
    store: &mut S,
    out: &mut O,
) -> Status
    ensures ends { EndsWith (asked_by (map string_bytes words.now)) (S.state store.old) (S.state store.new) (O.state out.old) (O.state out.new) result }
    ensures done { result ≡ Status.Done → IsDone (asked_by (map string_bytes words.now)) (S.state store.old) (S.state store.new) (O.state out.old) (O.state out.new) }
    ensures built { result ≡ Status.Done → AreBuilt C.builds (asked_by (map string_bytes words.now)) (S.state store.old) (S.state store.new) }
    ensures checked { result ≡ Status.Done → IsCheckable (asked_by (map string_bytes words.now)) (S.state store.old) (S.state store.new) }
    ensures make { MakeEnds (asked_by (map string_bytes words.now)) result }
    ensures succeeds { (s : Status) → CanEnd (asked_by (map string_bytes words.now)) (S.state store.old) s
        → NoFault (S.state store.old) (S.state store.new) (O.state out.old) (O.state out.new)
        → (result ≡ s) ⊎ (result ≡ Status.Memory) }
    ensures answers { Answers (asked_by (map string_bytes words.now)) (S.state store.old) (S.state store.new) (O.state out.old) (O.state out.new) result }
    ensures no_command { asked_by (map string_bytes words.now) ≡ None
        → (result ≡ Status.Usage) ⊎ (result ≡ Status.Memory) }
{
    perform(compiler, alloc, words, store, out)
}
