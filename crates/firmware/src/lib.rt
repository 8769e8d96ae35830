// The one call for programs in C or Rust: a job's bytes in, its text out. The caller lends both; nothing else is read or written.
#![tactic(auto)]

ghost use Rattle.std.specs.Prelude.{◌≡◌};
ghost use Rattle.lines.specs.Lines.{written, laid_in, length_of};
ghost use Rattle.job.specs.Job.{job_text};

use lines::length_of;

// Writes the text of a job's answer at the start of out and answers its length; where out is too short, answers the largest number and leaves out as it was.
pub fn strips_solve(bytes: &[u8], out: &mut [u8]) -> usize
    ensures value { result ≡ length_of (written out.old (job_text bytes.now)) }
    ensures out_after { out.new ≡ laid_in out.old (job_text bytes.now) }
{
    length_of(job::solve(bytes, out))
}
