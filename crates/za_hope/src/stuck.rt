ghost use Rattle.std.specs.Prelude.{◌<◌, IfOk};
ghost use Rattle.za_dfa.specs.Tables.{automaton_of};
ghost use Rattle.za_min.specs.Live.{IsHope};
ghost use Rattle.za_hope.specs.Hopes.{GoesWith};

use std::alloc::Global;
use za_alpha::OutOfMemory;
use za_dfa::Dfa;
use za_min::{Hope, Live};
use za_script::Answer;

/// The hope that goes with an answer, where a run to its end led to state `q` of the DFA: if it is stuck,
/// whether some word leads from `q` to an accepting state, and else none. For a trace-closed language that
/// is the hope of the scripts, whichever run it was. Want of memory is the one free answer.
pub fn hope_of(alloc: Global, dfa: &Dfa, q: u8, answer: Answer) -> Result<Option<Hope>, OutOfMemory>
    requires { q < dfa.now.states }
    ensures { IfOk result (GoesWith (IsHope (automaton_of dfa.now) q) answer) }
{
    match answer {
        Answer::Accept | Answer::Reject => Ok(None),
        Answer::Stuck => {
            let live = Live::of(alloc, dfa)?;
            Ok(Some(live.hope(q)))
        }
    }
}
