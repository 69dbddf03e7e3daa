//! The commands whose code stands in place where their words are literal.
ghost use Rattle.std.specs.Prelude.{◌≡◌};
ghost use Rattle.std.specs.Str.{chars};
ghost use Rattle.tcl_code.specs.Guards.{inlined_of, name_of};

/// A command that is inlined, as long as its name stands for its page.
#[derive(Clone, Copy, Debug, PartialEq, Eq)]
pub enum Inlined {
    Set,
    Incr,
    Expr,
    If,
    While,
    For,
    Foreach,
    Lmap,
    Switch,
    Return,
    Break,
    Continue,
}

impl Inlined {
    /// The command's name.
    pub fn name(self) -> &'static str
        ensures { chars result.now ≡ name_of self }
    {
        match self {
            Inlined::Set => "set",
            Inlined::Incr => "incr",
            Inlined::Expr => "expr",
            Inlined::If => "if",
            Inlined::While => "while",
            Inlined::For => "for",
            Inlined::Foreach => "foreach",
            Inlined::Lmap => "lmap",
            Inlined::Switch => "switch",
            Inlined::Return => "return",
            Inlined::Break => "break",
            Inlined::Continue => "continue",
        }
    }
}

/// A command that changes a variable by one text: set(n) with a value, incr(n) with an increment.
#[derive(Clone, Copy, Debug, PartialEq, Eq)]
pub enum Change {
    Set,
    Incr,
}

impl Change {
    /// The command.
    pub fn inlined(self) -> Inlined
        ensures { result ≡ inlined_of self }
    {
        match self {
            Change::Set => Inlined::Set,
            Change::Incr => Inlined::Incr,
        }
    }
}
