//! Laws of the definitions: each function's contract is one, and its body does nothing.
ghost use Rattle.std.specs.Prelude.{ℤ};
ghost use Rattle.tcl_pages.specs.DictLaws.{DictionaryIsDistinct, PairsAreDictionary};
ghost use Rattle.tcl_pages.specs.Glob.{GlobIsMatch};
ghost use Rattle.tcl_pages.specs.SortLaws.{OrdersAreStrict, UniqueIsLast};
ghost use Rattle.tcl_pages.specs.Sorting.{SortedIsStable};
ghost use Rattle.tcl_pages.specs.StringLaws.{LastIsGreatest, MappedIsMap, OneMap, SplitIsJoined, TrimmedIsTrimmed};
ghost use Rattle.tcl_pages.specs.Strings.{FirstIsLeast};
ghost use Rattle.tcl_pages.specs.Texts.{Text};

/// A text matches a pattern just where the test says so.
pub fn glob_is_match()
    ensures { GlobIsMatch }
{}

/// A list sorted is its one rearrangement that is in order and leaves elements that tie as they stood.
pub fn sorted_is_stable()
    ensures texts { SortedIsStable Text }
    ensures numbers { SortedIsStable (ℤ × Text) }
{}

/// The orders of `lsort` are strict: what ties with one of two elements stands to the other as this one does.
pub fn orders_are_strict()
    ensures { OrdersAreStrict }
{}

/// A list sorted with `-unique` is in order, and has of its elements that tie the last one.
pub fn unique_is_last()
    ensures texts { UniqueIsLast Text }
    ensures numbers { UniqueIsLast (ℤ × Text) }
{}

/// Where a text is sought in another, the first place is the least.
pub fn first_is_least()
    ensures { FirstIsLeast }
{}

/// Where a text is sought in another from the end, the last place is the greatest.
pub fn last_is_greatest()
    ensures { LastIsGreatest }
{}

/// A text mapped is what the relation says of it, and nothing else.
pub fn mapped_is_map()
    ensures { MappedIsMap }
{}

/// A text is mapped to one text at most.
pub fn one_map()
    ensures { OneMap }
{}

/// What is taken off a text is of the set, and what stays begins and ends outside of it.
pub fn trimmed_is_trimmed()
    ensures { TrimmedIsTrimmed }
{}

/// A text split at a character has parts that don't hold it, and joined by it they are the text.
pub fn split_is_joined()
    ensures { SplitIsJoined }
{}

/// The pairs that are read make the dictionary that has each key in its first place, with its last value.
pub fn pairs_are_dictionary()
    ensures { PairsAreDictionary }
{}

/// No key stands in a dictionary twice.
pub fn dictionary_is_distinct()
    ensures { DictionaryIsDistinct }
{}
