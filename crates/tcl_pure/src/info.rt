//! Whether a text is a complete command: info(n).

ghost use Rattle.std.specs.Prelude.{◌≡◌};
ghost use Rattle.tcl_chars.specs.Answers.{Answers};
ghost use Rattle.tcl_meaning.specs.Pure as spec;

use std::alloc::Global;
use tcl_arguments::one_text;
use tcl_chars::Fault;
use tcl_values::Value;
use tcl_words::is_complete;

/// `info complete command`: is the text complete, so that no more of it is to come?
///
/// # Errors
///
/// `Fault::Error` with the usage, `Fault::Memory`.
#[tactic(auto, using(crate::proofs::Complete::of_one_word))]
pub(crate) fn info_complete(alloc: Global, words: &mut [Value]) -> Result<Value, Fault>
    ensures answer { Answers (λ v. v) result (spec.info_complete words.old) }
    ensures same { words.new ≡ words.old }
{
    let text = one_text(alloc, words, "info complete command")?;
    let complete = is_complete(alloc, text.as_str())?;
    Ok(Value::of_truth(complete))
}
