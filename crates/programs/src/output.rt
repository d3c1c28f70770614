// The output: one write for a line, which is out before anything more is read.
ghost use Rattle.std.specs.Prelude.{◌≡◌, true};
ghost use Rattle.std.specs.Io.KnownBytes.{Appends};
ghost use Rattle.lines.specs.Lines.{standing_line, progress_line};

use answers::{Refusal, Verdict};
use std::io::Write;

// The line of a watch: whether it was written whole. Where it was not, the program is to end.
pub fn standing<W: Write>(out: &mut W, ticks: u64, verdict: Verdict, slots: u64, nodes: u64) -> bool
    ensures { result ≡ true → Appends (W.contents out.old) (W.contents out.new) (standing_line ticks verdict slots nodes) }
{
    out.write_all(lines::standing(ticks, verdict, slots, nodes).bytes())
        .is_ok()
}

// The line of a rule in one place, in the same way.
pub fn progress<W: Write>(out: &mut W, ticks: u64, verdict: Verdict, nodes: u64) -> bool
    ensures { result ≡ true → Appends (W.contents out.old) (W.contents out.new) (progress_line ticks verdict nodes) }
{
    out.write_all(lines::progress(ticks, verdict, nodes).bytes())
        .is_ok()
}

// The last line after a refusal. The program ends behind it, whether it could be written or not.
pub fn refused<W: Write>(out: &mut W, refusal: Refusal) {
    let _ = out.write_all(lines::refused(refusal).bytes());
}

// The last line where a read has failed.
pub fn failed_read<W: Write>(out: &mut W) {
    let _ = out.write_all(b"failed read\n");
}
