ghost use Rattle.std.specs.Prelude.{◌≡◌, ◌≢◌, ◌<◌, ◌≤◌, ◌+◌, ◌-◌, ℕ, length, slice_index};
ghost use Rattle.hw_driver.specs.Answer.{sink_change, Delivers};
ghost use Rattle.hw_driver.specs.Decided.{decision_view};
ghost use Rattle.hw_driver.specs.Lines.{EndsAtLf, GivesEach, IsLine, IsRest};
ghost use Rattle.hw_driver.specs.Sending.{Sends};

use crate::decision::Decision;
use hw_base::Status;
use hw_ports::{Failed, Sink};

// Sends a text in as many writes as the sink takes. An empty text is no write.
fn send<S: Sink>(sink: &mut S, text: &[u8]) -> Result<(), Failed>
    ensures sends { Sends (sink_change S.taken S.faults sink.old sink.new) result text.now }
    ensures rests { GivesEach (IsRest text.now) (S.pieces sink.old) (S.pieces sink.new) }
{
    let mut at = 0;
    while at < text.len() {
        match sink.write(&text[at..]) {
            Ok(count) => at += count,
            Err(fault) => return Err(fault),
        }
    }
    Ok(())
}

// How many bytes the first line has, with its LF.
fn line_length(text: &[u8]) -> usize
    ensures within { result ≤ length text.now }
    ensures some { 0 < length text.now → 0 < result }
    ensures ends_at_lf { result < length text.now → slice_index text.now (result - 1) ≡ 10 }
    ensures no_lf_before { (k : ℕ) → k + 1 < result → slice_index text.now k ≢ 10 }
{
    match text.iter().position(|byte| *byte == b'\n') {
        Some(at) => at + 1,
        None => text.len(),
    }
}

// Sends a text line by line.
fn send_lines<S: Sink>(sink: &mut S, text: &[u8]) -> Result<(), Failed>
    ensures sends { Sends (sink_change S.taken S.faults sink.old sink.new) result text.now }
    ensures lines { EndsAtLf text.now → GivesEach IsLine (S.pieces sink.old) (S.pieces sink.new) }
{
    let mut at = 0;
    while at < text.len() {
        let length = line_length(&text[at..]);
        match send(sink, &text[at..at + length]) {
            Ok(()) => at += length,
            Err(fault) => return Err(fault),
        }
    }
    Ok(())
}

/// Delivers a decision: its output to `out`, then its closing text to `err` line by line. A fault of `out` is reported on
/// `err`; after a fault nothing more is written to that port.
pub fn deliver<O: Sink, E: Sink>(decision: &Decision, out: &mut O, err: &mut E) -> Status
    ensures delivers { Delivers (decision_view decision.now) result (sink_change O.taken O.faults out.old out.new) (sink_change E.taken E.faults err.old err.new) }
    ensures lines { EndsAtLf (decision_view decision.now).text → GivesEach IsLine (E.pieces err.old) (E.pieces err.new) }
{
    match send(out, decision.output.as_slice()) {
        Err(_) => {
            let _ = send_lines(err, b"fault: write\n");
            Status::WriteFault
        }
        Ok(()) => match send_lines(err, decision.text.as_slice()) {
            Err(_) => Status::WriteFault,
            Ok(()) => decision.status,
        },
    }
}
