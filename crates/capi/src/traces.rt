// Where a seat got its list: the boxes from which it and its sources began.
ghost use Rattle.std.specs.Prelude.{◌≡◌};
ghost use Rattle.word_outputs.specs.TraceOutputs.{boxes_copied, boxes_left, trace_answer, boxes_after, box_count_after};

use arrayvec::ArrayVec;
use histories::trace::{MOST_HOSTS, trace};
use types::rejection::Rejection;
use word_outputs::words::put_count;

// Copies the boxes of a seat's trace to an output, nearest first: 0 and their count, or the rejection and nothing written.
#[unsafe(no_mangle)]
pub extern "C" fn penkwadar_trace(
    state: &[u64],
    zone: u64,
    index: u64,
    host: u64,
    out: &mut [u64],
    count: &mut [u64],
) -> u64
    ensures value { result ≡ trace_answer state.now zone index host out.old count.old }
    ensures out_after { out.new ≡ boxes_after state.now zone index host out.old count.old }
    ensures count_after { count.new ≡ box_count_after state.now zone index host out.old count.old }
{
    if count.len() < 1 {
        return u64::from(Rejection::OutputLength);
    }
    put_count(count, copy_boxes(state, zone, index, host, out))
}

// The same without a count: how many boxes were copied, or the rejection and the output untouched.
fn copy_boxes(
    state: &[u64],
    zone: u64,
    index: u64,
    host: u64,
    out: &mut [u64],
) -> Result<usize, Rejection>
    ensures value { result ≡ boxes_copied state.now zone index host out.old }
    ensures out_after { out.new ≡ boxes_left state.now zone index host out.old }
{
    if out.len() < MOST_HOSTS {
        return Err(Rejection::OutputLength);
    }
    let mut boxes = ArrayVec::new();
    trace(state, zone, index, host, &mut boxes)?;
    out[..boxes.len()].copy_from_slice(&boxes);
    Ok(boxes.len())
}
