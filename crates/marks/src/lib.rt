// The paying marks: eight 64-bit words for each kind. State s has bit (s mod 64) of word (s div 64).
#![tactic(auto)]

ghost use Rattle.std.specs.Prelude.{◌≡◌, ◌%◌, ◌^◌};
ghost use Rattle.plain.specs.Table.{accepts, with_mark, without_mark, by_kind, accepting_count};

// The mask of state s: 2 to the power of its position, which is s mod 64.
#[tactic(auto, using(std::proofs::lemmas::Nat::one_shl))]
fn mask(s: usize) -> u64
    ensures { result ≡ 2 ^ (s % 64) }
{
    1 << (s % 64)
}

// Does state s pay, by words that are lent? No for a state past the last word.
#[tactic(auto, using(plain::proofs::Bits::bit_of_zero), unfolding(plain::specs::Table::accepts, plain::specs::Table::bit))]
pub fn accepts_in(words: &[u64], s: usize) -> bool
    ensures { result ≡ accepts words.now s }
{
    words
        .get(s / 64)
        .is_some_and(|word| (word >> (s % 64)) % 2 == 1)
}

// Sets the mark of s in words that are lent. A state past the last word has none, and the words stay as they are.
// Kept: an index behind its test, here and in `clear_mark`: of what the words end as behind `get_mut` the library says nothing.
#[tactic(auto, using(plain::proofs::Bits::or_sets), unfolding(plain::specs::Table::with_mark))]
pub fn set_mark(words: &mut [u64], s: usize)
    ensures { words.new ≡ with_mark words.old s }
{
    let word = s / 64;
    if word < words.len() {
        words[word] |= mask(s);
    }
}

// Clears the mark of s: its word loses what it has of the mask.
pub fn clear_mark(words: &mut [u64], s: usize)
    ensures { words.new ≡ without_mark words.old s }
{
    let word = s / 64;
    if word < words.len() {
        words[word] &= !mask(s);
    }
}

// The count of paying states, of any kind: the ones of each word, the four kinds taken together, added.
pub fn count(marks: [u64; 32]) -> u32
    ensures { result ≡ accepting_count (by_kind marks) }
{
    let mut sum = 0;
    for i in 0..8 {
        let any = marks[i] | marks[i + 8] | marks[i + 16] | marks[i + 24];
        sum += any.count_ones();
    }
    sum
}
