//! The program over any files, requests and outputs. It takes words, and gives a text, the line of a
//! fault, and an exit status.

ghost use Rattle.std.specs.Prelude.{◌≡◌, IfErr, IfOk, MatchResult, Result, map};
ghost use Rattle.std.specs.String.{string_bytes};
ghost use Rattle.ch_words.specs.Line.{IsAllowed, IsFaultOf, IsReadFrom, line_status_of};
ghost use Rattle.chtab.specs.Program.{AnswersFault, CanCountWrites, EndsIn, IsAnswer, IsEnd, IsTold, answer_of, line_fault_text};
ghost use Rattle.chtab.specs.declared.program.ProgramFault.{ProgramFault as FaultOf};

use ch_line::{Files, run_line};
use ch_run::{Input, Output, RunFault, fault_line, status, write_all};
use ch_watch::Watch;
use ch_words::{Line, LineFault, line_status, read_words};
use std::alloc::{AllocError, Global};
use std::thread::Threads;
use thiserror::Error;

/// The threads and the memory that the program runs on.
#[derive(Drop)]
pub struct System<'r, R> {
    pub rt: &'r R,
    pub alloc: Global,
}

/// Why the program ends with no answer.
#[derive(Debug, Drop, Error)]
pub enum ProgramFault {
    #[error("{0}")]
    Line(LineFault),
    #[error("chtab: {0}")]
    Run(RunFault),
}

/// Runs the program on the words after its name, or on the fault of reading them. Returns the exit
/// status:
///
/// - 0 if all is done;
/// - 1 if a file or a request is refused;
/// - 2 if the words are refused;
/// - 3 if the system refuses memory, a file or a write.
///
/// It writes the text of an answer or of help to `output`, and the line of a fault to `errors`. It reads the
/// requests only if the words ask for answers to them. It tells the gate whether the words ask for progress.
pub fn run<R: Threads + Sync, F: Files, J: Input, O: Output, E: Output, G: Watch>(
    system: &System<'_, R>,
    files: &mut F,
    requests: &mut J,
    output: &mut O,
    errors: &mut E,
    words: Result<Vec<String>, LineFault>,
    gate: &G,
) -> u8
    requires output { CanCountWrites O.failed O.idle output.old }
    requires errors { CanCountWrites E.failed E.idle errors.old }
    ensures { (answer : Result Unit FaultOf)
        × MatchResult words
        (λ list. IsAnswer F.opens F.closes F.Input.read_gives F.Input.origin J.read_gives J.failed O.write_gives O.failed O.idle
        (map string_bytes list.items) files.old files.new requests.old requests.new output.old output.new answer)
        (λ fault. (files.new ≡ files.old) × (requests.new ≡ requests.old) × AnswersFault O.write_gives fault output.old output.new answer)
        × IsEnd E.write_gives answer errors.old errors.new result }
{
    let answer = answer_to(system, files, requests, output, words, gate);
    end(errors, &answer)
}

/// Runs the line that the words give, or answers their fault, or why there are no words.
fn answer_to<R: Threads + Sync, F: Files, J: Input, O: Output, G: Watch>(
    system: &System<'_, R>,
    files: &mut F,
    requests: &mut J,
    output: &mut O,
    words: Result<Vec<String>, LineFault>,
    gate: &G,
) -> Result<(), ProgramFault>
    requires output { CanCountWrites O.failed O.idle output.old }
    ensures { MatchResult words
        (λ list. IsAnswer F.opens F.closes F.Input.read_gives F.Input.origin J.read_gives J.failed O.write_gives O.failed O.idle
        (map string_bytes list.items) files.old files.new requests.old requests.new output.old output.new result)
        (λ fault. (files.new ≡ files.old) × (requests.new ≡ requests.old) × AnswersFault O.write_gives fault output.old output.new result) }
{
    let System { rt, alloc } = *system;
    let words = match words {
        Ok(words) => words,
        Err(fault) => return answer_fault(output, fault),
    };
    match line_of(alloc, &words) {
        Ok(line) => {
            gate.begin(line.progress);
            program_answer(run_line(rt, alloc, files, requests, output, &line, gate))
        }
        Err(fault) => answer_fault(output, fault),
    }
}

/// Returns the line that the words give, or their fault.
fn line_of(alloc: Global, words: &[String]) -> Result<Line, LineFault>
    ensures limits { IfOk result IsAllowed }
    ensures read { IfOk result (IsReadFrom (map string_bytes words.now)) }
    ensures fault { IfErr result (IsFaultOf (map string_bytes words.now)) }
{
    let texts = texts_of(alloc, words)?;
    read_words(alloc, &texts)
}

/// Returns the words as texts, which clap reads.
fn texts_of<'a>(alloc: Global, words: &'a [String]) -> Result<Vec<&'a str>, AllocError>
    ensures { IfOk result (λ texts. map (λ text. text.now) texts.items ≡ map string_bytes words.entry.now) }
{
    let mut texts = Vec::new(alloc);
    for word in words {
        texts.push(word.as_str())?;
    }
    Ok(texts)
}

/// Returns the answer of the program for this result of its run.
fn program_answer(run: Result<(), RunFault>) -> Result<(), ProgramFault>
    ensures { result ≡ answer_of run }
{
    match run {
        Ok(()) => Ok(()),
        Err(fault) => Err(ProgramFault::Run(fault)),
    }
}

/// Writes the text of help if the words ask for it: that is no fault. Any other fault is the answer.
fn answer_fault<O: Output>(output: &mut O, fault: LineFault) -> Result<(), ProgramFault>
    requires output { CanCountWrites O.failed O.idle output.old }
    ensures { AnswersFault O.write_gives fault output.old output.new result }
{
    match fault {
        LineFault::Help(text) => match write_all(output, text.as_bytes()) {
            Ok(()) => Ok(()),
            Err(count) => Err(ProgramFault::Run(RunFault::Write(count))),
        },
        fault => Err(ProgramFault::Line(fault)),
    }
}

/// Reports the fault of an answer, if it has one, and returns the exit status.
fn end<E: Output>(errors: &mut E, answer: &Result<(), ProgramFault>) -> u8
    requires errors { CanCountWrites E.failed E.idle errors.old }
    ensures { IsEnd E.write_gives answer.now errors.old errors.new result }
{
    match answer {
        Ok(()) => 0,
        Err(fault) => tell_fault(errors, fault),
    }
}

/// Reports a fault, and returns the exit status.
fn tell_fault<E: Output>(errors: &mut E, fault: &ProgramFault) -> u8
    requires errors { CanCountWrites E.failed E.idle errors.old }
    ensures { EndsIn E.write_gives fault.now errors.old errors.new result }
{
    match fault {
        ProgramFault::Line(fault) => tell_line_fault(errors, fault),
        ProgramFault::Run(fault) => tell_run_fault(errors, fault),
    }
}

/// Reports why no line is run, and returns the exit status.
fn tell_line_fault<E: Output>(errors: &mut E, fault: &LineFault) -> u8
    requires errors { CanCountWrites E.failed E.idle errors.old }
    ensures told { IsTold E.write_gives (line_fault_text fault.now) errors.old errors.new }
    ensures status { result ≡ line_status_of fault.now }
{
    tell(errors, line_text(fault));
    line_status(fault)
}

/// Returns the text that reports why no line is run.
fn line_text(fault: &LineFault) -> &[u8]
    ensures { result.now ≡ line_fault_text fault.now }
{
    match fault {
        LineFault::Help(text) | LineFault::Refused(text) => text.as_bytes(),
        LineFault::NoMemory => b"chtab: out of memory\n",
    }
}

/// Reports the fault of a run, and returns the exit status.
fn tell_run_fault<E: Output>(errors: &mut E, fault: &RunFault) -> u8
    requires errors { CanCountWrites E.failed E.idle errors.old }
    ensures { EndsIn E.write_gives (FaultOf.Run fault.now) errors.old errors.new result }
{
    tell(errors, fault_line(fault).as_slice());
    status(fault)
}

/// Writes a text to the errors. If that fails, nobody can learn of it.
fn tell<E: Output>(errors: &mut E, text: &[u8])
    requires errors { CanCountWrites E.failed E.idle errors.old }
    ensures { IsTold E.write_gives text.now errors.old errors.new }
{
    let _ = write_all(errors, text);
}
