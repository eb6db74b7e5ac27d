//! What holds of the spellings of frames and answers, whatever reads or writes them.
ghost use Rattle.std.specs.Prelude.{◌≡◌, ◌⊎◌, ◌<◌, ◌≤◌, ◌++◌, ℕ, List, Result, Ok, Err, length};
ghost use Rattle.link_codec.specs.declared.answers.Answer.{Answer};
ghost use Rattle.link_codec.specs.declared.faults.LinkFault.{LinkFault};
ghost use Rattle.link_codec.specs.declared.faults.LinkFault.TheVariants.{NoMemory};
ghost use Rattle.link_codec.specs.declared.frames.Frame.{Frame};
ghost use Rattle.link_codec.specs.Answers.{DecodesAnswer, IsBadAnswer, IsCutAnswer, IsSpellableAnswer, answer_bytes};
ghost use Rattle.link_codec.specs.Frames.{DecodesFrame, IsBadFrame, IsCutFrame, IsSpellableFrame, frame_bytes};

use log_records::{entries_are_read_again, messages_are_read_again, no_batch_is_longer};

/// The one answer to what begins with a spelling is that it is read again, whatever follows it, unless memory runs out.
pub fn what_was_written_is_read_again()
    ensures frames { (f : Frame) (rest : List ℕ) (answer : Result (Frame × ℕ) LinkFault) → IsSpellableFrame f → DecodesFrame (frame_bytes f ++ rest) answer
        → (answer ≡ Ok (f, length (frame_bytes f))) ⊎ (answer ≡ Err NoMemory) }
    ensures answers { (a : Answer) (rest : List ℕ) (answer : Result (Answer × ℕ) LinkFault) → IsSpellableAnswer a → DecodesAnswer (answer_bytes a ++ rest) answer
        → (answer ≡ Ok (a, length (answer_bytes a))) ⊎ (answer ≡ Err NoMemory) }
{
    entries_are_read_again();
    messages_are_read_again();
    no_batch_is_longer();
}

/// Two spellings that begin one input are one. So no spelling begins another one, and none is that of two values.
pub fn one_spelling_begins_an_input()
    ensures frames { (f other : Frame) (rest more : List ℕ) → IsSpellableFrame f → IsSpellableFrame other → frame_bytes f ++ rest ≡ frame_bytes other ++ more
        → (f ≡ other) × (rest ≡ more) }
    ensures answers { (a other : Answer) (rest more : List ℕ) → IsSpellableAnswer a → IsSpellableAnswer other → answer_bytes a ++ rest ≡ answer_bytes other ++ more
        → (a ≡ other) × (rest ≡ more) }
{
    entries_are_read_again();
    messages_are_read_again();
    no_batch_is_longer();
}

/// What begins with a spelling is neither cut nor bad.
pub fn what_begins_with_a_spelling_is_whole()
    ensures frames { (f : Frame) (rest : List ℕ) → IsSpellableFrame f → (IsCutFrame (frame_bytes f ++ rest) → ⊥) × (IsBadFrame (frame_bytes f ++ rest) → ⊥) }
    ensures answers { (a : Answer) (rest : List ℕ) → IsSpellableAnswer a → (IsCutAnswer (answer_bytes a ++ rest) → ⊥) × (IsBadAnswer (answer_bytes a ++ rest) → ⊥) }
{
    no_batch_is_longer();
}

/// No frame has a spelling of more than 1,213,481 bytes, and no answer one of more than 1,213,482.
pub fn no_spelling_is_longer()
    ensures frames { (f : Frame) → IsSpellableFrame f → length (frame_bytes f) ≤ 1213481 }
    ensures answers { (a : Answer) → IsSpellableAnswer a → length (answer_bytes a) ≤ 1213482 }
{
    no_batch_is_longer();
}

/// What is cut has fewer bytes than the longest spelling.
pub fn what_is_cut_is_short()
    ensures frames { (input : List ℕ) → IsCutFrame input → length input < 1213481 }
    ensures answers { (input : List ℕ) → IsCutAnswer input → length input < 1213482 }
{}

/// What is cut is not bad.
pub fn what_is_cut_is_not_bad()
    ensures frames { (input : List ℕ) → IsCutFrame input → IsBadFrame input → ⊥ }
    ensures answers { (input : List ℕ) → IsCutAnswer input → IsBadAnswer input → ⊥ }
{}

/// What is bad stays bad, whatever follows it.
pub fn what_is_bad_stays_bad()
    ensures frames { (input more : List ℕ) → IsBadFrame input → IsBadFrame (input ++ more) }
    ensures answers { (input more : List ℕ) → IsBadAnswer input → IsBadAnswer (input ++ more) }
{}
