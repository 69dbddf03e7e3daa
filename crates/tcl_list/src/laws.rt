//! Laws of the definitions: each function's contract is one, and its body does nothing.
ghost use Rattle.tcl_list.specs.Laws.{AppendedIsLonger, FaultIsFirst, OneList, ReadingIsSpelling, ReadingOrFault, WrittenIsSpelled};

/// A text reads as the elements that it spells, and as no other.
pub fn reading_is_spelling()
    ensures { ReadingIsSpelling }
{}

/// A text has the fault that stands in it, and no other.
pub fn fault_is_first()
    ensures { FaultIsFirst }
{}

/// A text spells one list at most.
pub fn one_list()
    ensures { OneList }
{}

/// Each text spells a list or has a fault, and none does both.
pub fn reading_or_fault()
    ensures { ReadingOrFault }
{}

/// What is written spells the elements that were written.
pub fn written_is_spelled()
    ensures { WrittenIsSpelled }
{}

/// An element appended to a written list gives the list that is longer by this element, written. It is the first where the
/// list is empty.
pub fn appended_is_longer()
    ensures { AppendedIsLonger }
{}
