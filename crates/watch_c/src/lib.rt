// The watch as a C function.
#![tactic(auto)]

ghost use Rattle.watch.specs.Text.{Watched};

// The whole watch on a text: its output lines as far as they fit whole into the first 65,536 bytes of out. It returns twice the bytes
// written, and 1 more where a line did not fit.
#[unsafe(no_mangle)]
pub extern "C" fn free_round_watch(text: &[u8], out: &mut [u8]) -> u64
    ensures { Watched text.now out.old out.new result }
{
    watch::free_round_watch(text, out)
}
