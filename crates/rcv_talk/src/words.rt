// The words that the program is called with.

ghost use Rattle.std.specs.Prelude.{MatchOption};
ghost use Rattle.rcv_talk.specs.Openings.{AreWords, AreOtherWords, texts_of};

use rcv_guided::saving::Saving;

/// What roles have saved, by the words, which are none or the word `--told`. The answer is None if they are other ones.
pub fn saving_of(words: &[String]) -> Option<Saving>
    ensures { MatchOption result (AreOtherWords (texts_of words.now)) (AreWords (texts_of words.now)) }
{
    match words {
        [] => Some(Saving::ByPlan),
        [word] if word.as_str() == "--told" => Some(Saving::Told),
        _ => None,
    }
}
