// Runs the watch on each of the texts of standard input, and prints each output and the number returned.
// A block of 65,536 bytes is a list of texts, parted by a byte 30; the last block may be shorter.
// Their results are of another hand (tests/).
#![tactic(auto)]

use std::io::Stdout;

const SEPARATOR: u8 = 30;

const BLOCK: usize = 65536;

// One text, and its answer. A write that fails is passed over.
fn answer(output: Stdout, text: &[u8], out: &mut [u8]) {
    let number = watch::free_round_watch(text, out);
    let n = (number / 2).min(out.len() as u64) as usize;
    let _ = output.write_all(&out[..n]);
    let _ = println!(output; "{number}");
}

// The texts of one block, and their answers.
fn answer_block(output: Stdout, block: &[u8], out: &mut [u8]) {
    for text in block.split_inclusive(|&b| b == SEPARATOR) {
        answer(output, text.strip_suffix(&[SEPARATOR]).unwrap_or(text), out);
    }
}

// Nothing says that the input ends, and a proved loop has to: it counts up to a number that no run reaches.
fn main(rt: HostRuntime) {
    let mut input: [u8; BLOCK] = [0; BLOCK];
    let mut out: [u8; BLOCK] = [0; BLOCK];
    for _ in 0..u64::MAX {
        let n = console::read_full(&mut rt.stdin(), &mut input);
        if n == 0 {
            return;
        }
        answer_block(rt.stdout(), &input[..n], &mut out);
    }
}
