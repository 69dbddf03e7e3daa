//! Laws of the definitions: each function's contract is one, and its body does nothing.
ghost use Rattle.tcl_strings.specs.FieldArguments.{FieldFaultIsItsArguments, FieldTakesItsArguments};
ghost use Rattle.tcl_strings.specs.FieldLaws.{FieldIsRead, FieldOrFault, OneField, RefusalIsNoLetter, UnendedIsBeginning};
ghost use Rattle.tcl_strings.specs.FormatText.{FormatFaultIsFirst, FormatIsShown, FormatOrFault, OneFormat};

/// A text that begins with a field of a format is read as this field, and as no other.
pub fn field_is_read()
    ensures { FieldIsRead }
{}

/// A field of a format is refused at the character where a letter must stand.
pub fn refusal_is_no_letter()
    ensures { RefusalIsNoLetter }
{}

/// A format ends in the middle of a field where only a beginning of one stands.
pub fn unended_is_beginning()
    ensures { UnendedIsBeginning }
{}

/// A text begins with one field at most.
pub fn one_field()
    ensures { OneField }
{}

/// Each text begins with a field, or has a fault in place of one.
pub fn field_or_fault()
    ensures { FieldOrFault }
{}

/// What a field shows is a function of the field and of its own arguments, the next ones.
pub fn field_takes_its_arguments()
    ensures { FieldTakesItsArguments }
{}

/// The fault of a field is one of its own arguments, or that there are too few.
pub fn field_fault_is_its_arguments()
    ensures { FieldFaultIsItsArguments }
{}

/// What `format` answers is what its text shows of the arguments.
pub fn format_is_shown()
    ensures { FormatIsShown }
{}

/// The error of `format` is the first fault from the left, and no other.
pub fn format_fault_is_first()
    ensures { FormatFaultIsFirst }
{}

/// A format shows one text at most.
pub fn one_format()
    ensures { OneFormat }
{}

/// Each format shows a text or has a fault, and none does both.
pub fn format_or_fault()
    ensures { FormatOrFault }
{}
