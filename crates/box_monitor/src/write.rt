// Writing a line to a log.
ghost use Rattle.std.specs.Prelude.{◌≡◌, [], IsTrue, false};
ghost use Rattle.std.specs.Io.KnownBytes.{Appends};
ghost use Rattle.box_monitor.specs.Stops.{AppendsPart};

use crate::log_end::LogEnd;
use std::io::Write;

// Whether the log took the whole line. `write_all` would go on after an interrupted write, and does
// not say how much was written before an error.
fn write_bytes<L: Write>(log: &mut L, line: &[u8]) -> bool
    ensures whole { IsTrue result → Appends (L.contents log.old) (L.contents log.new) line.now }
    ensures part { result ≡ false →
        AppendsPart (L.contents log.old) (L.contents log.new) [] line.now }
{
    let mut at = 0;
    while at < line.len() {
        match log.write(&line[at..]) {
            Ok(0) => return false,
            Ok(n) => at += n,
            Err(_) => return false,
        }
    }
    true
}

/// Writes the line and flushes it, and says how the log stands then.
pub fn write_line<L: Write>(log: &mut L, line: &[u8]) -> LogEnd
    ensures whole { result ≡ LogEnd.Whole →
        Appends (L.contents log.old) (L.contents log.new) line.now }
    ensures unsure { result ≡ LogEnd.Unsure →
        Appends (L.contents log.old) (L.contents log.new) line.now }
    ensures part { result ≡ LogEnd.Part →
        AppendsPart (L.contents log.old) (L.contents log.new) [] line.now }
{
    if !write_bytes(log, line) {
        return LogEnd::Part;
    }
    match log.flush() {
        Ok(()) => LogEnd::Whole,
        Err(_) => LogEnd::Unsure,
    }
}
