// The archive for programs in C or Rust: `firmware::strips_solve` under its C name. firmware/strips.h has its contract in C's words.
#![tactic(auto)]

ghost use Rattle.std.specs.Prelude.{◌≡◌};
ghost use Rattle.lines.specs.Lines.{written, laid_in, length_of};
ghost use Rattle.job.specs.Job.{job_text};

// Writes the text of a job's answer at the start of out and answers its length; where out is too short, answers the largest number and leaves out as it was.
#[unsafe(no_mangle)]
pub extern "C" fn strips_solve(bytes: &[u8], out: &mut [u8]) -> usize
    ensures value { result ≡ length_of (written out.old (job_text bytes.now)) }
    ensures out_after { out.new ≡ laid_in out.old (job_text bytes.now) }
{
    firmware::strips_solve(bytes, out)
}
