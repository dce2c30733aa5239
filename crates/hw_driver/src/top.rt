ghost use Rattle.std.specs.Prelude.{◌≡◌, ℕ, List, Some};
ghost use Rattle.hw_ports.specs.Content.{Bytes};
ghost use Rattle.hw_driver.specs.Line.{Line, line};
ghost use Rattle.hw_driver.specs.LineView.{texts};
ghost use Rattle.hw_driver.specs.Answer.{Answers, files_change, read_of, sink_change};
ghost use Rattle.hw_driver.specs.Lines.{GivesEach, IsLine};
ghost use Rattle.hw_driver.specs.Promises.{AnswersRises, Closes, HadNoFault, HasItsCause, IsExact, ReadsItsFile, ShowsModule};

use crate::delivery::deliver;
use crate::judging::decide;
use hw_base::Status;
use hw_ports::{Files, Sink, Source};
use std::alloc::Global;

// The whole answer.
fn answer<F: Files, O: Sink, E: Sink>(
    alloc: Global,
    words: &[String],
    files: &mut F,
    out: &mut O,
    err: &mut E,
) -> Status
    ensures answers { Answers (line (texts words.now)) (files_change F.content F.reads F.failed files.old files.new) result
        (sink_change O.taken O.faults out.old out.new) (sink_change E.taken E.faults err.old err.new) }
    ensures lines { GivesEach IsLine (E.pieces err.old) (E.pieces err.new) }
{
    let decision = decide(alloc, words, files);
    deliver(&decision, out, err)
}

/// All that the program does with its words (those after the program's name) and its environment. The words are read
/// first, then the file (at most 16 MiB), then its text is refused or run; the output goes to `out` when the run has ended,
/// and the closing text to `err`, line by line. All memory is taken before the first write.
///
/// `run FILE` is a command, where FILE doesn't begin with a dash, and after it may come the tag words and `--steps N` in any order,
/// each at most once. The tag words are `--tags L`, a list of 1 to 65,536 numbers from 0 to 255 joined by commas, that repeats, or
/// `--seed S` with S below 2^64; without either they are those of seed 1. N is from 1 to 1,000,000,000. All numbers are in decimal
/// digits. A text is run if it is an accepted module of LLVM IR all of whose parts the machine runs; any other text is refused at its
/// first fault. A run checks each access by tags as Clang's HardwareAssistedAddressSanitizer does, and ends with a report at the
/// first check that fails; it ends after N steps at the latest.
pub fn hwasan<F: Files, I: Source, O: Sink, E: Sink>(
    alloc: Global,
    words: &[String],
    files: &mut F,
    input: &mut I,
    out: &mut O,
    err: &mut E,
) -> Status
    // What is decided on by the words and the file, and how it is delivered.
    ensures answers { Answers (line (texts words.now)) (files_change F.content F.reads F.failed files.old files.new) result
        (sink_change O.taken O.faults out.old out.new) (sink_change E.taken E.faults err.old err.new) }

    // No input is read.
    ensures input { input.new ≡ input.old }

    // The file of a command is read once, and nothing else is.
    ensures reads { ReadsItsFile (line (texts words.now)) (files_change F.content F.reads F.failed files.old files.new)
        (sink_change O.taken O.faults out.old out.new) (sink_change E.taken E.faults err.old err.new) result }

    // Each answer has its cause, whatever is observable.
    ensures cause { HasItsCause (line (texts words.now)) (files_change F.content F.reads F.failed files.old files.new)
        (sink_change O.taken O.faults out.old out.new) (sink_change E.taken E.faults err.old err.new) result }

    // No fault is passed over.
    ensures rises { AnswersRises (line (texts words.now)) (files_change F.content F.reads F.failed files.old files.new)
        (sink_change O.taken O.faults out.old out.new) (sink_change E.taken E.faults err.old err.new) result }

    // Without a fault and with enough memory, the answer and the bytes are those of the words and the text.
    ensures exact { HadNoFault (line (texts words.now)) (files_change F.content F.reads F.failed files.old files.new)
        (sink_change O.taken O.faults out.old out.new) (sink_change E.taken E.faults err.old err.new) result
        → IsExact (line (texts words.now)) (files_change F.content F.reads F.failed files.old files.new) result
        (sink_change O.taken O.faults out.old out.new) (sink_change E.taken E.faults err.old err.new) }

    // With a fault or without memory, the bytes are a front of those, and the closing line says which.
    ensures closing { Closes (line (texts words.now)) (files_change F.content F.reads F.failed files.old files.new)
        (sink_change O.taken O.faults out.old out.new) (sink_change E.taken E.faults err.old err.new) result }

    // Each piece that is written to `err` is a line, or the rest of one.
    ensures lines { GivesEach IsLine (E.pieces err.old) (E.pieces err.new) }

    // What is shown of a text is the run of its module, of which the detection theorem holds for every input, or its refusal.
    ensures detects { (l : Line) (bytes : List ℕ) → line (texts words.now) ≡ Some l → F.content files.old l.file ≡ Bytes bytes
        → HadNoFault (line (texts words.now)) (files_change F.content F.reads F.failed files.old files.new)
        (sink_change O.taken O.faults out.old out.new) (sink_change E.taken E.faults err.old err.new) result
        → ShowsModule l (read_of bytes) result (sink_change O.taken O.faults out.old out.new) (sink_change E.taken E.faults err.old err.new) }
{
    let _ = input;
    answer(alloc, words, files, out, err)
}
