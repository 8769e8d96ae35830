// The archive that the comparison with the original and the benchmark link beside that of `firmware_c`: the calls of `measured` under their C names.
#![tactic(auto)]

ghost use Rattle.std.specs.Prelude.{◌≡◌, length};
ghost use Rattle.root.specs.Root.{root_of};
ghost use Rattle.records.specs.Records.{read_all};
ghost use Rattle.lines.specs.Lines.{written, laid_in, length_of};
ghost use Rattle.job.specs.Job.{job_along_text};
ghost use Rattle.plan_text.specs.Shown.{show_along_text};
ghost use Rattle.direct.specs.Direct.{direct_answer, direct_store};
ghost use Rattle.measured.specs.Measured as spec;

// The numbers of a job's factors, at the start of the lent store. The rest of the store is as it was.
#[unsafe(no_mangle)]
pub extern "C" fn strips_store(bytes: &[u8], store: &mut [f64])
    ensures { store.new ≡ (read_all bytes.now store.old).store }
{
    measured::strips_store(bytes, store);
}

// Reads a job once and runs its graph as often as is asked.
#[unsafe(no_mangle)]
pub extern "C" fn strips_repeat(
    bytes: &[u8],
    times: usize,
    messages: &mut [f64],
    marginals: &mut [f64],
)
    ensures { spec.stores messages.new marginals.new ≡
        spec.repeated (spec.read_job bytes.now) (spec.stores messages.old marginals.old) times }
{
    measured::strips_repeat(bytes, times, messages, marginals);
}

// Reads a job and eliminates the cleared keys from some of its factors.
#[unsafe(no_mangle)]
pub extern "C" fn strips_eliminate(
    bytes: &[u8],
    slots: &[usize],
    kept: &[usize],
    cleared: &[usize],
    messages: &mut [f64],
) -> usize
    ensures value { result ≡ spec.number_in (direct_answer
        (spec.eliminated (spec.read_job bytes.now) slots.now kept.now cleared.now
        (length messages.old))) }
    ensures messages_after { messages.new ≡ direct_store messages.old
        (spec.eliminated (spec.read_job bytes.now) slots.now kept.now cleared.now
        (length messages.old)) }
{
    measured::strips_eliminate(bytes, slots, kept, cleared, messages)
}

// Reads a job once and makes the plan of its graph as often as is asked.
#[unsafe(no_mangle)]
pub extern "C" fn strips_plan(bytes: &[u8], times: usize) -> usize
    ensures { result ≡ spec.replanned (spec.read_job bytes.now).answer.graph times }
{
    measured::strips_plan(bytes, times)
}

// Reads a job and runs its graph along an order, each byte of which is a key; lays what `strips` would then print.
#[unsafe(no_mangle)]
pub extern "C" fn strips_ordered(job: &[u8], order: &[u8], out: &mut [u8]) -> usize
    ensures value { result ≡ length_of (written out.old (job_along_text job.now order.now)) }
    ensures out_after { out.new ≡ laid_in out.old (job_along_text job.now order.now) }
{
    measured::strips_ordered(job, order, out)
}

// The same with the text of the job's plan along the order.
#[unsafe(no_mangle)]
pub extern "C" fn strips_ordered_plan(job: &[u8], order: &[u8], out: &mut [u8]) -> usize
    ensures value { result ≡ length_of (written out.old (show_along_text job.now order.now)) }
    ensures out_after { out.new ≡ laid_in out.old (show_along_text job.now order.now) }
{
    measured::strips_ordered_plan(job, order, out)
}

// Reads a job and runs its graph along an order over the lent stores.
#[unsafe(no_mangle)]
pub extern "C" fn strips_ordered_run(
    job: &[u8],
    order: &[u8],
    messages: &mut [f64],
    marginals: &mut [f64],
) -> usize
    ensures value { result ≡ spec.ordered_number (spec.read_job job.now).answer.ended
        (spec.run_of (spec.read_job job.now) order.now (spec.stores messages.old marginals.old)) }
    ensures marginals_after { spec.stores messages.new marginals.new ≡ spec.ordered_stores (spec.read_job job.now).answer.ended
        (spec.run_of (spec.read_job job.now) order.now (spec.stores messages.old marginals.old))
        (spec.stores messages.old marginals.old) }
{
    measured::strips_ordered_run(job, order, messages, marginals)
}

// The root of a pivot, and +0.0 for a refused one.
#[unsafe(no_mangle)]
pub extern "C" fn strips_root(pivot: f64) -> f64
    ensures { result ≡ spec.root_in (root_of pivot) }
{
    measured::strips_root(pivot)
}

// The lookup of a key in keys that rise: 256 times the count of keys read, and the key's place, or 255 where it isn't there.
#[unsafe(no_mangle)]
pub extern "C" fn strips_lookup(keys: &[u8], key: usize) -> usize
    ensures { result ≡ spec.lookup_number keys.now key }
{
    measured::strips_lookup(keys, key)
}
