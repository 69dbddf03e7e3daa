//! A written list as a command and as a script, indices, and the options of `return`: each law is the contract of a function that
//! does nothing.

ghost use Rattle.tcl_laws.specs.Indices.{LargeIsSpelled, OtherIsNoIndex, PositionsFit};
ghost use Rattle.tcl_laws.specs.ListWords.{ExpandsToElements, NextWordsAreElements, WordsAreElements};
ghost use Rattle.tcl_laws.specs.ListCalls.{AskedListIsCalled, EvalIsCalled, ListIsCalled, ListThenRest, ListingIsCalled};
ghost use Rattle.tcl_laws.specs.OneCommand.{NextCommand, OneCommand};
ghost use Rattle.tcl_laws.specs.ReturnOptions.{BoundNeverShows, OptionsAreJoined};
ghost use Rattle.tcl_laws.specs.SameBrace.{SameBraceCloses};

/// The brace that closes an element in braces is the one that would close a word in braces.
pub fn same_brace_closes()
    ensures { SameBraceCloses }
{}

/// What is written of one element or more is one command, whose words are these elements.
pub fn one_command()
    ensures { OneCommand }
{}

/// So it is where a command's end follows it, also inside brackets.
pub fn next_command()
    ensures { NextCommand }
{}

/// What is written of one element or more is one command, whose words are its elements in every state.
pub fn words_are_elements()
    ensures { WordsAreElements }
{}

/// So it is where a command's end follows it, also inside brackets.
pub fn next_words_are_elements()
    ensures { NextWordsAreElements }
{}

/// A word with `{*}` in front that comes to a written list stands for its elements.
pub fn expands_to_elements()
    ensures { ExpandsToElements }
{}

/// To run a written list is to call the command that its first element names, with the others as arguments.
pub fn list_is_called()
    ensures { ListIsCalled }
{}

/// So it is where more commands follow it: they come after the call.
pub fn list_then_rest()
    ensures { ListThenRest }
{}

/// A page that asks for a written list to be run has that command called, and then does what it owes.
pub fn asked_list_is_called()
    ensures { AskedListIsCalled }
{}

/// `eval` of a written list is that call.
pub fn eval_is_called()
    ensures { EvalIsCalled }
{}

/// `eval` of what `list` answers is the call of the command that its first word names.
pub fn listing_is_called()
    ensures { ListingIsCalled }
{}

/// A text is read as an index that is too large exactly where it spells one: an index of which a number doesn't fit 64 bits.
pub fn large_is_spelled()
    ensures { LargeIsSpelled }
{}

/// It is read as no index exactly where it spells neither a position nor an index that is too large.
pub fn other_is_no_index()
    ensures { OtherIsNoIndex }
{}

/// A text spells a position exactly where it spells an index whose numbers all fit 64 bits.
pub fn positions_fit()
    ensures { PositionsFit }
{}

/// The pairs of `-options` are treated as options of `return` that stand in its place, those of an `-options` among them too.
pub fn options_are_joined()
    ensures { OptionsAreJoined }
{}

/// They are joined up to a bound that never shows: a greater one changes nothing.
pub fn bound_never_shows()
    ensures { BoundNeverShows }
{}
