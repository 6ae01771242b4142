//! Laws of the run of a line, each the contract of a function that does nothing.
ghost use Rattle.std.specs.Prelude.{◌≡◌, Err, List, Result};
ghost use Rattle.ch_run.specs.declared.fault.RunFault.{RunFault as FaultOf};
ghost use Rattle.ch_run.specs.declared.fault.Which.{Which as WhichOf};
ghost use Rattle.ch_job.specs.declared.job.Job.{Job as JobOf};
ghost use Rattle.ch_line.specs.Inputs.{RunsOver, TellsOver};
ghost use Rattle.ch_line.specs.Line.{AreOpened, EndsAtMissing, File, HaveBytes, IsUnopened, MayAllBeThere, StopsOpening};

use crate::files::Files;
use ch_run::{Input, Output};

/// Proves what the openings of files tell of the bytes that are known of their names. An opened file has these bytes.
/// A missing file is not opened: the run ends at the first of the files that is missing, or in a lack of memory before.
pub fn openings_tell<F: Files>()
    ensures bytes { (files : List File) → (inputs : List (WhichOf × F.Input)) → (old new : F) → AreOpened F.opens files inputs old new → HaveBytes F.Input.left (F.known old) files inputs }
    ensures there { (files : List File) → (inputs : List (WhichOf × F.Input)) → (old new : F) → AreOpened F.opens files inputs old new → MayAllBeThere (F.known old) files }
    ensures unopened { (files : List File) → (old new : F) → (fault : FaultOf) → StopsOpening F.opens files old new fault → IsUnopened (F.known old) files fault }
    ensures missing { (files : List File) → (old new : F) → (result : Result Unit FaultOf) → (fault : FaultOf) → result ≡ Err fault → StopsOpening F.opens files old new fault → EndsAtMissing (F.known old) files result }
    ensures all { (files : List File) → (inputs : List (WhichOf × F.Input)) → (old new : F) → (result : Result Unit FaultOf) → AreOpened F.opens files inputs old new → EndsAtMissing (F.known old) files result }
{}

/// Proves what the story of a run over the inputs of a job tells. The output takes the text of the question, whole or
/// its first bytes, or the answers to requests, and nothing else. A file is refused only for its content. A failed read
/// of a file is reported exactly if there was one. A read or a write that failed is not tried again, and a failed write
/// is reported.
pub fn run_tells<I: Input, J: Input, O: Output>()
    ensures { (old new : JobOf I) → (requests requests' : J) → (output output' : O) → (result : Result Unit FaultOf) →
        RunsOver I.read_gives old new J.read_gives requests requests' O.write_gives output output' result →
        TellsOver I.read_gives old new J.read_gives requests requests' O.write_gives output output' result }
{}
