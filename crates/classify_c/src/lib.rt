// Classify (document 01, "Reserved words") for a C host: include/arborstitch.h declares it.
#![tactic(auto)]

ghost use Rattle.std.specs.Prelude.{length};
ghost use Rattle.classify.specs.Answer.{outcome_of, Answered};

use classify::Classified;

// Every plain name of `text` outside directives, as offset, length and 1 if the keyword set in force reserves it, else
// 0. `set` is the keyword set at the start: 0 for 1364-1995, 1 for 1364-2001, 2 for 1364-2005, 3 for 1800-2005.
#[unsafe(no_mangle)]
pub extern "C" fn classify(text: &[u8], set: u32, words: &mut [[u32; 3]]) -> Classified
    ensures { Answered text.now (outcome_of set text.now (length words.old)) words.old words.new result }
{
    classify::classify(text, set, words)
}
